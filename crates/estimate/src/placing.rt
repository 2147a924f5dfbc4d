// States put into an ordered table, each where it belongs.
ghost use Rattle.std.specs.Prelude.{◌≡◌, true, ◌&&◌, [], ◌∷◌, ◌++◌, ◌+◌, ◌*◌, ◌≤◌, suc, ltb, length, take, drop};
ghost use Rattle.rules.specs.Ordered.{insert};
ghost use Rattle.rules.specs.Table.{order, plus as plus_of, rising, state_at};
ghost use Rattle.words.specs.Tables.{table_of};
ghost use Rattle.estimate.specs.Placing.{is_after, is_same, place_of, Passed, Inserted, Added};

use crate::memory::{load, store};
use rules::State;
use states::{is_same, plus};

// Whether `s` stands after the state at place `at`: no word is read where those before it decide.
pub(crate) fn is_behind(words: &[u64], at: usize, s: State) -> bool
    requires { at * 5 + 5 ≤ length words.now }
    ensures { result ≡ is_after (order s (state_at (table_of words.now) at)) }
{
    let base = at * 5;
    let mask = words[base];
    if mask != s.mask {
        return mask < s.mask;
    }
    let misses = words[base + 1];
    if misses != s.misses {
        return misses < s.misses;
    }
    let f = s.filled;
    let front = words[base + 2];
    if front != f.front {
        return front < f.front;
    }
    words[base + 3] < f.back
}

// How many of the first `n` states stand before `s`, as the first `from` do: by halves.
pub(crate) fn seek(words: &[u64], from: usize, n: usize, s: State) -> usize
    requires { (from ≤ n) × (n * 5 ≤ length words.now) × (rising (take n (table_of words.now)) ≡ true) × Passed s (take n (table_of words.now)) from }
    ensures { result ≡ place_of s (take n (table_of words.now)) }
{
    let mut low = from;
    let mut high = n;
    // By halves; the library searches slices of values, and these are states in words.
    while low < high {
        let middle = low + (high - low) / 2;
        if is_behind(words, middle, s) {
            low = middle + 1;
        } else {
            high = middle;
        }
    }
    low
}

// Whether the contents of the state at place `at` come before those of `s`.
pub(crate) fn holds_less(words: &[u64], at: usize, s: State) -> bool
    requires { at * 5 + 5 ≤ length words.now }
    ensures { result ≡ true → is_after (order s (state_at (table_of words.now) at)) ≡ true }
{
    words[at * 5] < s.mask
}

// The same, where `s` often belongs to place `from`, or to the end.
pub(crate) fn seek_on(words: &[u64], from: usize, n: usize, s: State) -> usize
    requires { (from ≤ n) × (n * 5 ≤ length words.now) × (rising (take n (table_of words.now)) ≡ true) × Passed s (take n (table_of words.now)) from }
    ensures { result ≡ place_of s (take n (table_of words.now)) }
{
    if n <= from {
        return from;
    }
    if holds_less(words, n - 1, s) {
        return n;
    }
    if is_behind(words, from, s) {
        return seek(words, from + 1, n, s);
    }
    from
}

// Whether `s` belongs to the state at place `at` of `n`.
pub(crate) fn meets(words: &[u64], n: usize, at: usize, s: State) -> bool
    requires { n * 5 ≤ length words.now }
    ensures { result ≡ (ltb at n && is_same (order s (state_at (table_of words.now) at))) }
{
    if at < n {
        return is_same(s, load(words, at));
    }
    false
}

// Makes room at place `at` among the first `n` states, and puts `s` there.
pub(crate) fn make_room(words: &mut [u64], n: usize, at: usize, s: State)
    requires { (at ≤ n) × (n * 5 + 5 ≤ length words.old) }
    ensures { take (suc n) (table_of words.new) ≡ take at (table_of words.old) ++ (s ∷ drop at (take n (table_of words.old))) }
{
    words.copy_within(at * 5..n * 5, (at + 1) * 5);
    store(words, at, s);
}

// Puts `s` at place `at`, where it belongs, into the table of the first `n` states; how many it then has.
pub(crate) fn put_at(words: &mut [u64], n: usize, at: usize, s: State) -> usize
    requires { (n * 5 ≤ length words.old) × (length (insert order plus_of s (take n (table_of words.old))) * 5 ≤ length words.old) × (at ≡ place_of s (take n (table_of words.old))) }
    ensures { Inserted s n result (table_of words.old) (table_of words.new) }
{
    if meets(words, n, at, s) {
        let t = load(words, at);
        store(words, at, plus(t, s));
        return n;
    }
    make_room(words, n, at, s);
    n + 1
}

// Puts `s` into the table of the first `n` states; how many it then has.
pub(crate) fn put(words: &mut [u64], n: usize, s: State) -> usize
    requires { (n * 5 + 5 ≤ length words.old) × (rising (take n (table_of words.old)) ≡ true) }
    ensures { Inserted s n result (table_of words.old) (table_of words.new) }
{
    let at = seek(words, 0, n, s);
    put_at(words, n, at, s)
}

// How many states a table has when a state has come in, and the place behind that one.
#[derive(Clone, Copy)]
pub(crate) struct Reached {
    pub states: usize,
    pub at: usize,
}

// Puts `s` into the table of the first `n` states, of which the first `from` stand before it.
pub(crate) fn put_on(words: &mut [u64], from: usize, n: usize, s: State) -> Reached
    requires { (from ≤ n) × (n * 5 ≤ length words.old) × (length (insert order plus_of s (take n (table_of words.old))) * 5 ≤ length words.old) × (rising (take n (table_of words.old)) ≡ true) × Passed s (take n (table_of words.old)) from }
    ensures { Inserted s n result.states (table_of words.old) (table_of words.new) × (result.at ≡ suc (place_of s (take n (table_of words.old)))) }
{
    let at = seek_on(words, from, n, s);
    let states = put_at(words, n, at, s);
    Reached { states, at: at + 1 }
}

// Where a state of `misses` misses may stand, from the state at place `at` on: as far away as its misses are from those. Nothing rests on it: what stands there is looked at.
pub(crate) fn guess_about(words: &[u64], at: usize, n: usize, misses: u64) -> usize
    requires { (n * 5 ≤ length words.now) × (misses ≤ 4096) }
{
    if n <= at {
        return at;
    }
    let here = words[at * 5 + 1];
    if here <= misses {
        return at + (misses - here) as usize;
    }
    let back = (here - misses) as usize;
    if back <= at {
        return at - back;
    }
    at
}

// Puts `s` into the table of the first `n` states, where it often stands as far from place `at` as its misses are from those there; how many it then has, and its place.
pub(crate) fn put_about(words: &mut [u64], at: usize, n: usize, s: State) -> Reached
    requires { (n * 5 + 5 ≤ length words.old) × (s.misses ≤ 4096) × (rising (take n (table_of words.old)) ≡ true) }
    ensures { Inserted s n result.states (table_of words.old) (table_of words.new) × (result.at ≡ place_of s (take n (table_of words.old))) }
{
    let near = guess_about(words, at, n, s.misses);
    if meets(words, n, near, s) {
        let t = load(words, near);
        store(words, near, plus(t, s));
        return Reached {
            states: n,
            at: near,
        };
    }
    let place = seek_on(words, 0, n, s);
    let states = put_at(words, n, place, s);
    Reached { states, at: place }
}

// The same as `put`; a state of 0 units vanishes.
pub(crate) fn add(words: &mut [u64], n: usize, s: State) -> usize
    requires { (n * 5 + 5 ≤ length words.old) × (rising (take n (table_of words.old)) ≡ true) }
    ensures { Added (s ∷ []) n result (table_of words.old) (table_of words.new) }
{
    let u = s.units;
    if u.0 == 0 {
        return n;
    }
    put(words, n, s)
}
