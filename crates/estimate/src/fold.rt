// Folding a table down to the state limit.
ghost use Rattle.std.specs.Prelude.{◌≡◌, ◌≢◌, true, ◌&&◌, not, ◌+◌, ◌*◌, ◌-◌, ◌≤◌, ◌<◌, eqb, length, take, set};
ghost use Rattle.rules.specs.Ordered.{remove};
ghost use Rattle.rules.specs.Table.{units_of, order, rising, state_at};
ghost use Rattle.rules.specs.Fold.{fold, folded};
ghost use Rattle.words.specs.Tables.{table_of};
ghost use Rattle.estimate.specs.Placing.{is_same};
ghost use Rattle.estimate.specs.Rooms.{Stands};
ghost use Rattle.estimate.specs.Partners.{among, Replaced};

use crate::memory::{load, store};
use crate::placing::add;
use crate::tally::Tally;
use folding::is_above_limit;
use folding::partner::{made_one, set_aside};
use rules::{State, Units};
use searches::choose;
use states::is_same;

// The place among the others than the one at place `out` of the state at place `at`.
pub(crate) fn place_among(out: usize, at: usize) -> usize
    ensures { result ≡ among out at }
{
    if out < at {
        return at - 1;
    }
    at
}

// The first `n` states without the one at place `at`.
pub(crate) fn take_out(words: &mut [u64], n: usize, at: usize)
    requires { (at < n) × (n * 5 ≤ length words.old) }
    ensures { take (n - 1) (table_of words.new) ≡ remove at (take n (table_of words.old)) }
{
    // state by state: word by word, as copy_within goes, the call took 4 in 100 instructions more
    for j in at..n - 1 {
        let t = load(words, j + 1);
        store(words, j, t);
    }
}

// Whether `m`, if it has units, stands where the state at place `at` stands.
pub(crate) fn stays_at(words: &[u64], at: usize, m: State) -> bool
    requires { at * 5 + 5 ≤ length words.now }
    ensures { result ≡ (not (eqb (units_of m) 0) && is_same (order m (state_at (table_of words.now) at))) }
{
    let u = m.units;
    if u.0 == 0 {
        return false;
    }
    is_same(m, load(words, at))
}

// The first `n` states without the one at place `out`, and `m` in place of the one at place `at`.
pub(crate) fn keep(words: &mut [u64], n: usize, at: usize, out: usize, m: State)
    requires { (at < n) × (out < n) × (at ≢ out) × (n * 5 ≤ length words.old) }
    ensures { take (n - 1) (table_of words.new) ≡ set (remove out (take n (table_of words.old))) (among out at) m }
{
    take_out(words, n, out);
    store(words, place_among(out, at), m);
}

// `m` in place of the states at places `i` and `p`, of `n`, which are both taken out; how many states there are then.
pub(crate) fn put_anew(words: &mut [u64], n: usize, i: usize, p: usize, m: State) -> usize
    requires { (i < n) × (p < n) × (p ≢ i) × (n * 5 ≤ length words.old) × (rising (take n (table_of words.old)) ≡ true) }
    ensures { Replaced i p m n result (table_of words.old) (table_of words.new) }
{
    take_out(words, n, i);
    take_out(words, n - 1, place_among(i, p));
    add(words, n - 2, m)
}

// The same. Most often it stands where one of the two stood: then only
// the other one goes.
pub(crate) fn replace(words: &mut [u64], n: usize, i: usize, p: usize, m: State) -> usize
    requires { (i < n) × (p < n) × (p ≢ i) × (n * 5 ≤ length words.old) × (rising (take n (table_of words.old)) ≡ true) }
    ensures { Replaced i p m n result (table_of words.old) (table_of words.new) }
{
    if stays_at(words, i, m) {
        keep(words, n, i, p, m);
        return n - 1;
    }
    if stays_at(words, p, m) {
        keep(words, n, p, i, m);
        return n - 1;
    }
    put_anew(words, n, i, p, m)
}

// One fold of the first `n` states.
pub(crate) fn fold_once(words: &mut [u64], n: usize, aside: Units) -> Tally
    requires { (2 ≤ n) × (n * 5 ≤ length words.old) × (rising (take n (table_of words.old)) ≡ true) }
    ensures { Stands (fold (record { table = take n (table_of words.old); aside = aside.0 })) result.states result.aside.0 (table_of words.new) }
{
    let two = choose(words, n);
    let i = two.fewest;
    let p = two.partner;
    let s = load(words, i);
    let t = load(words, p);
    let u = s.units;
    let v = t.units;
    let m = made_one(s, t, u.add(v));
    Tally {
        states: replace(words, n, i, p, m),
        aside: set_aside(aside, s, t, m),
    }
}

// Folds while more than `limit` states remain.
pub(crate) fn fold_down(words: &mut [u64], n: usize, limit: usize, aside: Units) -> Tally
    requires { (1 ≤ limit) × (n * 5 ≤ length words.old) × (rising (take n (table_of words.old)) ≡ true) }
    ensures { Stands (folded limit (record { table = take n (table_of words.old); aside = aside.0 })) result.states result.aside.0 (table_of words.new) }
{
    let mut tally = Tally { states: n, aside };
    // Until few enough are left: no index is counted.
    while is_above_limit(tally.states, limit) {
        tally = fold_once(words, tally.states, tally.aside);
    }
    tally
}
