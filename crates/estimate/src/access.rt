// One access, state by state: the states that follow one are added to the table, and what is left over is counted. A table of few states is worked by this alone.
ghost use Rattle.std.specs.Prelude.{◌≡◌, true, map, ◌+◌, ◌*◌, ◌≤◌, ◌<◌, length, take, drop};
ghost use Rattle.rules.specs.Units.{whole, more};
ghost use Rattle.rules.specs.Contents.{without, held};
ghost use Rattle.rules.specs.Table.{rising, add as add_of};
ghost use Rattle.rules.specs.Step.{miss as miss_of, successors, access, access_aside};
ghost use Rattle.rules.specs.Shape.{Every, Listed};
ghost use Rattle.words.specs.Tables.{table_of};
ghost use Rattle.estimate.specs.Placing.{Added};
ghost use Rattle.estimate.specs.Rooms.{InScratch};
ghost use Rattle.estimate.specs.Following.{missed_from, lost_at, Placed, Workable};

use crate::memory::load;
use crate::placing::add;
use crate::tally::Tally;
use rules::{State, Target, Units};
use states::step::{at_risk, fuller, left_over, missed, rest_of};
use tables::{has_block, has_place, next_place, size_of, without_place};

// What a way that holds the block at place `at` makes of `s`, where that block is one of `risk`.
pub(crate) fn lose_one(
    words: &mut [u64],
    n: usize,
    s: State,
    x: Target,
    risk: u64,
    part: Units,
    at: usize,
) -> usize
    requires { Listed 16 x.place × (s.misses ≤ 4095) × (at < 16) × (n * 5 + 5 ≤ length words.old) × (rising (take n (table_of words.old)) ≡ true) }
    ensures { Added (lost_at x s risk part.0 at) n result (table_of words.old) (table_of words.new) }
{
    if has_place(risk, at) {
        return add(words, n, missed(s, x, without_place(s.mask, at), part));
    }
    n
}

// Each block of `risk` is lost in turn.
pub(crate) fn lose_each(
    words: &mut [u64],
    n: usize,
    s: State,
    x: Target,
    risk: u64,
    part: Units,
) -> usize
    requires { Listed 16 x.place × (s.misses ≤ 4095) × ((n + 16) * 5 ≤ length words.old) × (rising (take n (table_of words.old)) ≡ true) }
    ensures { Added (map (λ e. missed_from x s (without s.mask e) part.0) (held risk)) n result (table_of words.old) (table_of words.new) }
{
    let mut m = n;
    let mut at = next_place(risk, 0);
    // From one block of `risk` to the next, and not from place to place: no index is counted.
    while at < 16 {
        m = lose_one(words, m, s, x, risk, part, at);
        at = next_place(risk, at + 1);
    }
    m
}

// `s` does not hold the block: each way of its set has an equal part of the units, and what is left over goes to the block alone, or where
// no block can be lost with the others.
pub(crate) fn miss(words: &mut [u64], n: usize, s: State, x: Target, ways: u64) -> usize
    requires { Placed x × Workable ways x s × (ways ≤ 16) × ((n + 17) * 5 ≤ length words.old) × (rising (take n (table_of words.old)) ≡ true) }
    ensures { Added (miss_of ways x s) n result (table_of words.old) (table_of words.new) }
{
    let u = s.units;
    let share = u.split(ways);
    let part = share.part;
    let rest = share.rest;
    let risk = at_risk(s, x, ways);
    let t = fuller(s, x, ways);
    let lost = lose_each(words, n, t, x, risk, part);
    let others = Units((ways - size_of(risk)) * part.0);
    let kept = add(words, lost, missed(t, x, s.mask, others));
    add(words, kept, missed(t, x, rest_of(s.mask, risk), rest))
}

// The states that follow `s`: a hit leaves it as it is.
pub(crate) fn follow(words: &mut [u64], n: usize, s: State, x: Target, ways: u64) -> usize
    requires { Placed x × Workable ways x s × (ways ≤ 16) × ((n + 17) * 5 ≤ length words.old) × (rising (take n (table_of words.old)) ≡ true) }
    ensures { Added (successors ways x s) n result (table_of words.old) (table_of words.new) }
{
    let place = x.place;
    if has_block(s.mask, x.again, place) {
        return add(words, n, s);
    }
    miss(words, n, s, x, ways)
}

// The states that follow `s` added to the first `n` states of the scratch; how many states it then has.
pub(crate) fn follow_to_scratch(work: &mut [u64], n: usize, s: State, x: Target, ways: u64) -> usize
    requires { Placed x × Workable ways x s × (ways ≤ 16) × (20480 + (n + 17) * 5 ≤ length work.old) × (rising (take n (drop 4096 (table_of work.old))) ≡ true) }
    ensures { InScratch (add_of (successors ways x s) (take n (drop 4096 (table_of work.old)))) result (table_of work.old) (table_of work.new) }
{
    follow(&mut work[20480..], n, s, x, ways)
}

// The states that follow the `m` states at place `from`, added one after the other in the scratch, which is empty at first.
pub(crate) fn gather_each(
    work: &mut [u64],
    from: usize,
    m: usize,
    x: Target,
    ways: u64,
    aside: Units,
) -> Tally
    requires { Placed x × (ways ≤ 16) × (m ≤ 64) × (from + m ≤ 4096) × (25920 ≤ length work.old) × (aside.0 ≤ whole) × Every (Workable ways x) (take m (drop from (table_of work.old))) }
    ensures in_scratch { InScratch (access ways x (take m (drop from (table_of work.old)))) result.states (table_of work.old) (table_of work.new) }
    ensures aside_value { result.aside.0 ≡ more aside.0 (access_aside ways x (take m (drop from (table_of work.old)))) }
{
    let mut n: usize = 0;
    let mut count = aside;
    for i in 0..m {
        let s = load(work, from + i);
        n = follow_to_scratch(work, n, s, x, ways);
        count = count.add(left_over(s, x, ways));
    }
    Tally {
        states: n,
        aside: count,
    }
}
