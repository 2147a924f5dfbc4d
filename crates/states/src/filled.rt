// The filled numbers of a state: sixteen, a byte for each set, in two words.
ghost use Rattle.std.specs.Prelude.{◌≡◌, ◌/◌, ◌%◌, ◌^◌, ◌<◌, ◌≤◌, ◌&&◌, take, drop, if◌then◌else◌, ◌==◌, nat_le, nat_lt};
ghost use Rattle.rules.specs.Filling.{bytes_of, word_from, larger_of, filled_at, evenly as evenly_of, fullest as fullest_of, same_filled};
ghost use Rattle.rules.specs.Graph.{is_cold};
ghost use Rattle.states.specs.Filling.{filled_more, sixteen_of, start_in};

use basics::larger;
use rules::{Cache, Filled, Start};
use std::num::wrapping_add_u64;

// The byte of `word` at place `at`, of eight; the lowest has place 0.
pub(crate) fn byte_at(word: u64, at: usize) -> u64
    requires { at < 8 }
    ensures { result ≡ word / 256 ^ at % 256 }
{
    (word >> (8 * at)) % 256
}

// The larger of each two bytes, the highest first.
pub(crate) fn larger_bytes(v: u64, w: u64) -> u64
    ensures { result ≡ word_from 0 (larger_of (bytes_of 8 v) (bytes_of 8 w)) }
{
    let mut word: u64 = 0;
    for at in (0..8).rev() {
        word = word * 256 + larger(byte_at(v, at), byte_at(w, at));
    }
    word
}

// The larger number of each set; the same numbers are not taken apart.
pub fn fullest(f: Filled, g: Filled) -> Filled
    ensures { result ≡ fullest_of f g }
{
    if same_filled(f, g) {
        return f;
    }
    Filled {
        front: larger_bytes(f.front, g.front),
        back: larger_bytes(f.back, g.back),
    }
}

// Whether the numbers are the same.
pub fn same_filled(f: Filled, g: Filled) -> bool
    ensures { result ≡ same_filled f g }
{
    if f.front == g.front {
        return f.back == g.back;
    }
    false
}

// How many ways of set `set`, of sixteen, may be filled.
pub fn number_of(f: Filled, set: u32) -> u64
    ensures { result ≡ filled_at f (set % 16) }
{
    let at = (set % 16) as usize;
    if at < 8 {
        return byte_at(f.front, 7 - at);
    }
    byte_at(f.back, 15 - at)
}

// 1 in the byte at place `at`.
pub(crate) fn one_at(at: usize) -> u64
    requires { at < 8 }
    ensures { result ≡ 256 ^ at }
{
    1 << (8 * at)
}

// The numbers after a miss in set `set`: one more, up to `ways`.
pub(crate) fn fill_one(ways: u64, set: u32, f: Filled) -> Filled
    ensures { result ≡ filled_more ways (set % 16) f }
{
    if ways <= number_of(f, set) {
        return f;
    }
    let at = (set % 16) as usize;
    if at < 8 {
        return Filled {
            front: wrapping_add_u64(f.front, one_at(7 - at)),
            back: f.back,
        };
    }
    Filled {
        front: f.front,
        back: wrapping_add_u64(f.back, one_at(15 - at)),
    }
}

// `n` for a set below `sets`, and 0 for those beyond.
pub(crate) fn number_if(sets: u32, set: u32, n: u64) -> u64
    ensures { result ≡ (if nat_lt set sets then n else 0) }
{
    if set < sets {
        return n;
    }
    0
}

// The word of eight sets from set `first` on, where the first `sets` sets have `n`.
pub(crate) fn word_of(first: u32, sets: u32, n: u64) -> u64
    requires { (first ≤ 8) × (sets ≤ 16) × (n < 256) }
    ensures { result ≡ word_from 0 (take 8 (drop first (sixteen_of sets n))) }
{
    let mut word: u64 = 0;
    for i in 0..8 {
        word = word * 256 + number_if(sets, first + i, n);
    }
    word
}

// `n` for each of the first `sets` sets.
pub(crate) fn evenly(sets: u32, n: u64) -> Filled
    requires { (sets ≤ 16) × (n < 256) }
    ensures { result ≡ evenly_of sets n }
{
    Filled {
        front: word_of(0, sets, n),
        back: word_of(8, sets, n),
    }
}

// Whether every way is known to be empty at the start, and stays so until a miss fills it.
pub(crate) fn starts_empty(revision: u32, start: Start) -> bool
    ensures { result ≡ (revision == 2 && is_cold start) }
{
    match start {
        Start::Warm => false,
        Start::Cold => revision == 2,
    }
}

// Whether there are so few sets and ways.
fn has_bytes(sets: u32, ways: u32) -> bool
    ensures { result ≡ (nat_le sets 16 && nat_le ways 16) }
{
    if sets <= 16 {
        return ways <= 16;
    }
    false
}

// How many ways may be filled before the first access: none, or all. Of more than sixteen sets or ways it knows nothing.
pub fn start_of(cache: Cache) -> Filled
    ensures { result ≡ start_in cache }
{
    if !has_bytes(cache.sets, cache.ways) {
        return Filled { front: 0, back: 0 };
    }
    let start = cache.start;
    if starts_empty(cache.revision, start) {
        return evenly(cache.sets, 0);
    }
    evenly(cache.sets, cache.ways as u64)
}
