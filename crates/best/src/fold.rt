// Folding a table down to the state limit.
ghost use Rattle.std.specs.Prelude.{◌≡◌, true, cond, suc, ◌*◌, ◌-◌, ◌≤◌, ◌<◌, ltb, length, take};
ghost use Rattle.rules.specs.Ordered.{best, remove};
ghost use Rattle.best.specs.Tables.{rising, state_at};
ghost use Rattle.best.specs.Tables.{choice, closer as closer_of, fewer, fold, folded, work_of};
ghost use Rattle.words.specs.BestTables.{table_of};
ghost use Rattle.rules.specs.Best.{sharing as sharing_of, apart as apart_of};
ghost use Rattle.best.specs.Choosing.{nearness_of, nearer};
ghost use Rattle.best.specs.Rooms.{Stands};

use crate::meeting::meet;
use crate::memory::load;
use crate::placing::add;
use folding::is_above_limit;
use rules::{BestState, Pair};
use tables::size_of;

// How near two states are: the blocks that they share, and how far apart they are in misses and in hits.
#[derive(Clone, Copy)]
pub(crate) struct Nearness {
    pub shares: u64,
    pub misses: u64,
    pub hits: u64,
}

// How many blocks `s` shares with `t`; an open state shares none.
pub(crate) fn sharing(s: BestState, t: BestState) -> u64
    ensures { result ≡ sharing_of s t }
{
    if s.exact {
        if t.exact {
            return size_of(s.mask & t.mask);
        }
        return 0;
    }
    0
}

// How far apart two numbers are.
pub(crate) fn apart(a: u64, b: u64) -> u64
    ensures { result ≡ apart_of a b }
{
    if a < b {
        return b - a;
    }
    a - b
}

// How far apart in misses and in hits two states are, and how many blocks they share.
pub(crate) fn how_near(s: BestState, t: BestState) -> Nearness
    ensures { result ≡ nearness_of s t }
{
    let m = s.misses;
    let n = t.misses;
    let h = s.hits;
    let g = t.hits;
    Nearness {
        shares: sharing(s, t),
        misses: apart(m.0, n.0),
        hits: apart(h.0, g.0),
    }
}

// Whether a state that is `a` from another is a better partner of it than one that is `b` from it: it shares more blocks, or as many and is
// nearer in misses, or is as near in those too and nearer in hits.
pub(crate) fn closer(a: Nearness, b: Nearness) -> bool
    ensures { result ≡ nearer a b }
{
    if b.shares < a.shares {
        return true;
    }
    if a.shares < b.shares {
        return false;
    }
    if a.misses < b.misses {
        return true;
    }
    if b.misses < a.misses {
        return false;
    }
    a.hits < b.hits
}

// The place in the table of the state at place `at` among the others than the one at place `out`; `at` has a next number.
pub(crate) fn place_past(out: usize, at: usize) -> usize
    requires { at < 18446744073709551615 }
    ensures { result ≡ cond (ltb at out) at (suc at) }
{
    if at < out {
        return at;
    }
    at + 1
}

// The place of the state of fewest units among `n`, the first if tied.
pub(crate) fn fewest_of(words: &[u64], n: usize) -> usize
    requires { (1 ≤ n) × (n * 5 ≤ length words.now) }
    ensures { (result < n) × (best fewer (take n (table_of words.now)) ≡ result) }
{
    let mut fewest: usize = 0;
    let mut units = load(words, 0).units;
    for i in 1..n {
        let u = load(words, i).units;
        if u.0 < units.0 {
            fewest = i;
            units = u;
        }
    }
    fewest
}

// The place of the best partner of the state at place `at` among the others of `n`; of the best so far it keeps how near it is, `near`.
pub(crate) fn partner_of(words: &[u64], n: usize, at: usize) -> usize
    requires { (2 ≤ n) × (at < n) × (n * 5 ≤ length words.now) }
    ensures { best (closer_of (state_at (table_of words.now) at)) (remove at (take n (table_of words.now))) ≡ result }
{
    let s = load(words, at);
    let first = load(words, place_past(at, 0));
    let mut partner: usize = 0;
    let mut near = how_near(s, first);
    for j in 1..n - 1 {
        let t = load(words, place_past(at, j));
        let found = how_near(s, t);
        if closer(found, near) {
            partner = j;
            near = found;
        }
    }
    partner
}

// The state of fewest units among `n`, and its partner among the others.
pub(crate) fn choose(words: &[u64], n: usize) -> Pair
    requires { (2 ≤ n) × (n * 5 ≤ length words.now) }
    ensures { result ≡ choice (take n (table_of words.now)) }
{
    let fewest = fewest_of(words, n);
    Pair {
        fewest,
        partner: partner_of(words, n, fewest),
    }
}

// The first `n` states without the one at place `at`.
pub(crate) fn take_out(words: &mut [u64], n: usize, at: usize)
    requires { (at < n) × (n * 5 ≤ length words.old) }
    ensures { take (n - 1) (table_of words.new) ≡ remove at (take n (table_of words.old)) }
{
    words.copy_within((at + 1) * 5..n * 5, at * 5);
}

// Takes the state at place `at` out of the first `n` states.
pub(crate) fn pull(words: &mut [u64], n: usize, at: usize) -> BestState
    requires { (at < n) × (n * 5 ≤ length words.old) }
    ensures state { result ≡ state_at (table_of words.old) at }
    ensures table { take (n - 1) (table_of words.new) ≡ remove at (take n (table_of words.old)) }
{
    let s = load(words, at);
    take_out(words, n, at);
    s
}

// One fold of the first `n` states; how many there then are.
pub(crate) fn fold_once(words: &mut [u64], n: usize) -> usize
    requires { (2 ≤ n) × (n * 5 ≤ length words.old) × (rising (take n (table_of words.old)) ≡ true) }
    ensures { Stands (fold (work_of (take n (table_of words.old)))) result (table_of words.new) }
{
    let pair = choose(words, n);
    let i = pair.fewest;
    let j = pair.partner;
    let s = pull(words, n, i);
    let t = pull(words, n - 1, j);
    let u = s.units;
    let v = t.units;
    let m = meet(s, t, u.add(v));
    add(words, n - 2, m)
}

// Folds while more than `limit` states remain; how many are left.
pub(crate) fn fold_down(words: &mut [u64], n: usize, limit: usize) -> usize
    requires { (1 ≤ limit) × (n * 5 ≤ length words.old) × (rising (take n (table_of words.old)) ≡ true) }
    ensures { Stands (folded limit (work_of (take n (table_of words.old)))) result (table_of words.new) }
{
    let mut left = n;
    // Until few enough are left: no index is counted.
    while is_above_limit(left, limit) {
        left = fold_once(words, left);
    }
    left
}
