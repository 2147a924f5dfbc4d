// Rows of words: filled, cleared and added up; and a word that has more.
ghost use Rattle.std.specs.Prelude.{◌≡◌, ◌+◌, ◌-◌, ◌%◌, ◌^◌, ◌<◌, ◌≤◌, nat_le};
ghost use Rattle.basics.proofs.Sums.{sum_to};
ghost use Rattle.tight_rows.specs.Room.{words_of, Leaves};
ghost use Rattle.tight_rows.specs.Grid.{filled_words};
ghost use Rattle.tight_rows.specs.Rows.{replaced, There, More};

use rules::Filled;
use std::num::wrapping_add_u64;

// Whether `n` words from place `at` on end at place `end` or before.
pub fn ends_by(at: usize, n: usize, end: usize) -> bool
    ensures { result ≡ nat_le (at + n) end }
{
    if end < n {
        return false;
    }
    at <= end - n
}

// How many of `n` words from place `at` on there are in a room of `all` words.
fn there(at: usize, n: usize, all: usize) -> usize
    ensures { There at n all result }
{
    if all <= at {
        return 0;
    }
    if n < all - at {
        return n;
    }
    all - at
}

// The `width` words from place `at` on are `word`.
pub fn fill_row(work: &mut [u64], at: usize, width: usize, word: u64)
    ensures { Leaves (λ w. replaced at width (λ j. word) w) work.old work.new }
{
    let n = there(at, width, work.len());
    if 0 < n {
        work[at..at + n].fill(word);
    }
}

// They are 0.
pub fn clear_row(work: &mut [u64], at: usize, width: usize)
    ensures { Leaves (λ w. replaced at width (λ j. 0) w) work.old work.new }
{
    fill_row(work, at, width, 0);
}

// The sum of `n` words from place `from` on.
pub fn sum_of(work: &[u64], from: usize, n: usize) -> u64
    ensures { result ≡ sum_to n (λ j. words_of work.now (from + j)) % 2 ^ 64 }
{
    let m = there(from, n, work.len());
    let mut sum: u64 = 0;
    for j in 0..m {
        sum = wrapping_add_u64(sum, work[from + j]);
    }
    sum
}

// The word at place `at`.
pub fn word_at(work: &[u64], at: usize) -> u64
    ensures { result ≡ words_of work.now at }
{
    if at < work.len() {
        return work[at];
    }
    0
}

// The filled numbers whose words stand at two places.
pub fn filled_at(work: &[u64], front: usize, back: usize) -> Filled
    ensures { result ≡ filled_words (words_of work.now) front back }
{
    Filled {
        front: word_at(work, front),
        back: word_at(work, back),
    }
}

// So many units more go to `mask`, whose word is one of those from place `plan` on.
pub fn add_units(work: &mut [u64], plan: usize, mask: u64, units: u64)
    ensures { More (plan + mask) units work.old work.new }
{
    if work.len() <= plan {
        return;
    }
    if (work.len() - plan) as u64 <= mask {
        return;
    }
    let at = plan + mask as usize;
    work[at] = wrapping_add_u64(work[at], units);
}
