// The partner of a state in a fold: the first alike behind it is sought by `search`, and what else can be the partner here.
ghost use Rattle.std.specs.Prelude.{◌≡◌, cond, ◌||◌, ◌&&◌, not, ◌+◌, ◌*◌, ◌≤◌, ◌<◌, eqb, ltb, length};
ghost use Rattle.rules.specs.Fold.{sharing as sharing_of, apart as apart_of};
ghost use Rattle.rules.specs.Table.{state_at};
ghost use Rattle.words.specs.Tables.{table_of};
ghost use Rattle.searches.specs.Searches.{leads, holds_all, nearer, first_of_mask, first_holder, nearest_holder, nearest_of_all, nearest as nearest_to};

use crate::memory::load;
use folding::none_nearer;
use folding::partner::{apart, closer, holds_all, is_alike, is_unbeaten, one_fewer, sharing};
use rules::State;

// The first place of another state than the one at place `at`.
pub(crate) fn first_other(at: usize) -> usize
    ensures { (result ≡ cond (eqb at 0) 1 0) × (result ≤ 1) }
{
    if at == 0 {
        return 1;
    }
    0
}

// Whether the state at place `j`, another than the one at place `at`, is a better partner of `s` than one that shares `most` blocks with it and is `near` away
// in misses.
pub(crate) fn is_closer(words: &[u64], at: usize, s: State, j: usize, most: u64, near: u64) -> bool
    requires { j * 5 + 5 ≤ length words.now }
    ensures { result ≡ (not (eqb j at) && (ltb most (sharing_of s (state_at (table_of words.now) j)) || (eqb most (sharing_of s (state_at (table_of words.now) j)) && ltb (apart_of s (state_at (table_of words.now) j)) near))) }
{
    if j == at {
        return false;
    }
    closer(s, load(words, j), most, near)
}

// The partner of `s` among the others than the one at place `at`, of `n`, place by place; none of them shares more than `bound` blocks with it. Of the
// best so far it keeps how many blocks that one shares, `most`, and how far away in misses it is, `near`.
pub(crate) fn nearest_of_all(words: &[u64], n: usize, at: usize, s: State, bound: u64) -> usize
    requires { (2 ≤ n) × (n * 5 ≤ length words.now) }
    ensures { result ≡ nearest_of_all n (table_of words.now) s at bound }
{
    let mut partner = first_other(at);
    let first = load(words, partner);
    let mut most = sharing(s, first);
    let mut near = apart(s, first);
    for j in partner + 1..n {
        if is_unbeaten(most, near, bound) {
            return partner;
        }
        if is_closer(words, at, s, j, most, near) {
            let t = load(words, j);
            partner = j;
            most = sharing(s, t);
            near = apart(s, t);
        }
    }
    partner
}

// Whether `s` stands at place `at` before all that are alike to it.
pub(crate) fn stands_first(words: &[u64], at: usize, s: State) -> bool
    requires { at * 5 ≤ length words.now }
    ensures { result ≡ leads s (table_of words.now) at }
{
    if 65535 < s.mask {
        return false;
    }
    if at == 0 {
        return true;
    }
    !is_alike(s, load(words, at - 1))
}

// Whether the state at place `j`, another than the one at place `at`, holds all blocks of `s`.
pub(crate) fn is_holder(words: &[u64], at: usize, s: State, j: usize) -> bool
    requires { j * 5 + 5 ≤ length words.now }
    ensures { result ≡ (not (eqb j at) && holds_all s (state_at (table_of words.now) j)) }
{
    if j == at {
        return false;
    }
    holds_all(s, load(words, j))
}

// The place of the first of the states directly before place `at` that have this mask.
pub(crate) fn first_of_mask(words: &[u64], at: usize, mask: u64) -> usize
    requires { at * 5 ≤ length words.now }
    ensures { (result ≡ first_of_mask (table_of words.now) mask at) × (result ≤ at) }
{
    for i in (0..at).rev() {
        if load(words, i).mask != mask {
            return i + 1;
        }
    }
    0
}

// The place of the first of the states that hold all blocks of `s`, which stands at place `at` of `n`, from the first of its mask on; `n` if there is none.
pub(crate) fn first_holder(words: &[u64], n: usize, at: usize, s: State) -> usize
    requires { (at < n) × (n * 5 ≤ length words.now) }
    ensures { result ≡ first_holder n (table_of words.now) s at }
{
    let first = first_of_mask(words, at, s.mask);
    for j in first..n {
        if is_holder(words, at, s, j) {
            return j;
        }
    }
    n
}

// Whether it holds all blocks of `s` and is nearer in misses than `near`.
pub(crate) fn is_nearer(words: &[u64], at: usize, s: State, j: usize, near: u64) -> bool
    requires { j * 5 + 5 ≤ length words.now }
    ensures { result ≡ (not (eqb j at) && nearer s (state_at (table_of words.now) j) near) }
{
    if j == at {
        return false;
    }
    let t = load(words, j);
    if holds_all(s, t) {
        return apart(s, t) < near;
    }
    false
}

// The place of the nearest in misses of the states that hold all blocks of `s`, which stands at place `at` of `n`; the first of them stands at place
// `first`. Where none is alike, one miss apart is as near as can be.
pub(crate) fn nearest_holder(words: &[u64], n: usize, at: usize, s: State, first: usize) -> usize
    requires { (first < n) × (n * 5 ≤ length words.now) }
    ensures { result ≡ nearest_holder n (table_of words.now) s at first }
{
    let mut found = first;
    let mut near = apart(s, load(words, first));
    for j in first + 1..n {
        if none_nearer(near) {
            return found;
        }
        if is_nearer(words, at, s, j, near) {
            found = j;
            near = apart(s, load(words, j));
        }
    }
    found
}

// The partner of `s`, which stands at place `at` of `n`, where none is alike: the nearest of those that hold all its blocks, and else the best of all, none of
// which shares all of them.
pub(crate) fn nearest(words: &[u64], n: usize, at: usize, s: State) -> usize
    requires { (2 ≤ n) × (at < n) × (n * 5 ≤ length words.now) }
    ensures { result ≡ nearest_to n (table_of words.now) s at }
{
    let first = first_holder(words, n, at, s);
    if first < n {
        return nearest_holder(words, n, at, s, first);
    }
    nearest_of_all(words, n, at, s, one_fewer(s))
}
