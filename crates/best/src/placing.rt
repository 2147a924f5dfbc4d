// States put into an ordered table, each where it belongs.
ghost use Rattle.std.specs.Prelude.{◌≡◌, true, ◌&&◌, [], ◌∷◌, ◌++◌, ◌+◌, ◌*◌, ◌≤◌, suc, ltb, length, take, drop};
ghost use Rattle.best.specs.Tables.{order, plus as plus_of, rising, state_at};
ghost use Rattle.words.specs.BestTables.{table_of};
ghost use Rattle.best.specs.Placing.{is_after, is_same, place_of, Inserted, Added};

use crate::memory::{load, store};
use orders::{best_before, open_flag};
use rules::BestState;

// Whether `s` stands after `t`.
pub(crate) fn is_after(s: BestState, t: BestState) -> bool
    ensures { result ≡ is_after (order s t) }
{
    best_before(t, s)
}

// Whether `s` and `t` stand in the same place.
pub(crate) fn is_same(s: BestState, t: BestState) -> bool
    ensures { result ≡ is_same (order s t) }
{
    let m = s.misses;
    let h = s.hits;
    let n = t.misses;
    let g = t.hits;
    if open_flag(s.exact) != open_flag(t.exact) {
        return false;
    }
    if s.mask != t.mask {
        return false;
    }
    if m.0 != n.0 {
        return false;
    }
    h.0 == g.0
}

// `t` with the units of `s`.
pub(crate) fn plus(t: BestState, s: BestState) -> BestState
    ensures { result ≡ plus_of t s }
{
    let misses = t.misses;
    let hits = t.hits;
    let u = t.units;
    let v = s.units;
    BestState {
        exact: t.exact,
        mask: t.mask,
        misses,
        hits,
        units: u.add(v),
    }
}

// How many of the first `n` states stand before `s`: by halves.
pub(crate) fn seek(words: &[u64], n: usize, s: BestState) -> usize
    requires { (n * 5 ≤ length words.now) × (rising (take n (table_of words.now)) ≡ true) }
    ensures { result ≡ place_of s (take n (table_of words.now)) }
{
    let mut low: usize = 0;
    let mut high = n;
    // By halves; the library searches slices of values, and these are states in words.
    while low < high {
        let middle = low + (high - low) / 2;
        if is_after(s, load(words, middle)) {
            low = middle + 1;
        } else {
            high = middle;
        }
    }
    low
}

// Whether `s` belongs to the state at place `at` of `n`.
pub(crate) fn meets(words: &[u64], n: usize, at: usize, s: BestState) -> bool
    requires { n * 5 ≤ length words.now }
    ensures { result ≡ (ltb at n && is_same (order s (state_at (table_of words.now) at))) }
{
    if at < n {
        return is_same(s, load(words, at));
    }
    false
}

// Makes room at place `at` among the first `n` states, and puts `s` there.
pub(crate) fn make_room(words: &mut [u64], n: usize, at: usize, s: BestState)
    requires { (at ≤ n) × (n * 5 + 5 ≤ length words.old) }
    ensures { take (suc n) (table_of words.new) ≡ take at (table_of words.old) ++ (s ∷ drop at (take n (table_of words.old))) }
{
    words.copy_within(at * 5..n * 5, (at + 1) * 5);
    store(words, at, s);
}

// Puts `s` into the table of the first `n` states; how many it then has.
pub(crate) fn put(words: &mut [u64], n: usize, s: BestState) -> usize
    requires { (n * 5 + 5 ≤ length words.old) × (rising (take n (table_of words.old)) ≡ true) }
    ensures { Inserted s n result (table_of words.old) (table_of words.new) }
{
    let at = seek(words, n, s);
    if meets(words, n, at, s) {
        let t = load(words, at);
        store(words, at, plus(t, s));
        return n;
    }
    make_room(words, n, at, s);
    n + 1
}

// The same; a state of 0 units vanishes.
pub(crate) fn add(words: &mut [u64], n: usize, s: BestState) -> usize
    requires { (n * 5 + 5 ≤ length words.old) × (rising (take n (table_of words.old)) ≡ true) }
    ensures { Added (s ∷ []) n result (table_of words.old) (table_of words.new) }
{
    let u = s.units;
    if u.0 == 0 {
        return n;
    }
    put(words, n, s)
}
