// The plan of a reduction to at most so many contents: light contents lose their highest place (crate tight_rules, Reduction.antt). It goes over the units of each mask alone, in
// an array by mask, and says for each mask where its units go; rows move afterwards, each once.
#![tactic(auto)]

ghost use Rattle.std.specs.Prelude.{◌≡◌, cond, ◌&&◌, not, ◌+◌, ◌-◌, ◌%◌, ◌≤◌, ◌<◌, eqb, length};
ghost use Rattle.rules.specs.Contents.{places, bit};
ghost use Rattle.rules.specs.Units.{more};
ghost use Rattle.tight_rules.specs.Reduction.{is_at, lowered};
ghost use Rattle.plan.specs.Plan.{plan_of, end_of, itself, some, present_in, start, poured, emptied, level, all_levels, planned, fewest, lightest, NoneBelow};
ghost use Rattle.plan.specs.Next.{few, none_of_four, few_of_four, next_few};

use rules::Units;
use tables::{has_place, without_place};

// How many contents have units, and what is set aside.
#[derive(Clone, Copy)]
pub struct Tally {
    pub present: usize,
    pub aside: Units,
}

// Whether `held` is place `i`.
fn is_at(held: Option<usize>, i: usize) -> bool
    ensures { result ≡ is_at held i }
{
    match held {
        Some(j) => j == i,
        None => false,
    }
}

// Whether the block at place `i` can be taken away.
fn can_lose(mask: u64, held: Option<usize>, i: usize) -> bool
    ensures { result ≡ (bit mask (i % 64) && not (is_at held i)) }
{
    if has_place(mask, i) {
        return !is_at(held, i);
    }
    false
}

// The contents without their highest place; the one at `held` does not count.
#[tactic(auto, using(rules::proofs::Contents::sixteen_places), unfolding(tight_rules::specs::Reduction::lowered))]
fn lower(mask: u64, held: Option<usize>) -> u64
    ensures { result ≡ lowered places held mask }
{
    for i in (0..16).rev() {
        if can_lose(mask, held, i) {
            return without_place(mask, i);
        }
    }
    mask
}

// Where the units of `mask` go in the end, which is one of the `masks` contents.
#[tactic(auto, using(rules::proofs::Contents::sixteen_places), unfolding(crate::specs::Plan::onward))]
fn follow(words: &[u64], masks: usize, mask: u64) -> u64
    requires { masks + mask < length words.now }
    ensures { (result ≡ end_of masks words.now mask) × (result ≤ mask) }
{
    let mut at = mask;
    for _step in 0..16u32 {
        let next = words[masks + at as usize];
        if at <= next {
            return at;
        }
        at = next;
    }
    at
}

// Where the units of `mask` go in the end, of `masks` contents; what is not one of them goes nowhere.
#[tactic(auto, using(crate::proofs::Steps::onward_out))]
pub fn end_of(words: &[u64], masks: usize, mask: u64) -> u64
    ensures { result ≡ end_of masks words.now mask }
{
    if words.len() <= masks {
        return mask;
    }
    if (words.len() - masks) as u64 <= mask {
        return mask;
    }
    follow(words, masks, mask)
}

// Each of `masks` contents goes to itself.
#[tactic(auto, unfolding(crate::specs::Plan::itself))]
fn keep_all(words: &mut [u64], masks: usize)
    requires { masks + masks ≤ length words.old }
    ensures { words.new ≡ itself masks masks words.old }
{
    for m in (0..masks).rev() {
        words[masks + m] = m as u64;
    }
}

// How many of the contents have units.
#[tactic(auto, using(crate::proofs::Steps::present_most), unfolding(crate::specs::Plan::present_in))]
fn count(words: &[u64], masks: usize) -> usize
    requires { masks ≤ length words.now }
    ensures { result ≡ present_in masks words.now }
{
    let mut present: usize = 0;
    for units in &words[..masks] {
        present += usize::from(0 < *units);
    }
    present
}

// The fewer units, where `a` has some.
fn fewer(a: u64, b: u64) -> u64
    ensures { result ≡ fewest a b }
{
    if a == 0 {
        return b;
    }
    if a < b {
        return a;
    }
    b
}

// The fewest units of any contents that have some.
#[tactic(auto, unfolding(crate::specs::Plan::lightest))]
fn least(words: &[u64], masks: usize) -> u64
    requires { masks ≤ length words.now }
    ensures { result ≡ lightest masks words.now }
{
    let mut low: u64 = 562949953421312;
    for units in &words[..masks] {
        low = fewer(*units, low);
    }
    low
}

// The units `a` and `b` together, which stop at WHOLE.
fn sum(a: u64, b: u64) -> u64
    ensures { result ≡ more a b }
{
    let r = Units(a).add(Units(b));
    r.0
}

// One contents fewer where its units came to others that had some.
fn remaining(present: usize, there: u64) -> usize
    ensures { result ≡ present - some there }
{
    if there == 0 {
        return present;
    }
    if present == 0 {
        return 0;
    }
    present - 1
}

// The units of `mask` go where they go in the end, and are set aside.
#[tactic(auto, unfolding(crate::specs::Plan::poured))]
fn pour(words: &mut [u64], masks: usize, mask: usize, t: Tally) -> Tally
    requires { (masks + masks ≤ length words.old) × (mask < masks) }
    ensures { plan_of words.new result ≡ poured masks mask (plan_of words.old t) }
{
    let end = follow(words, masks, mask as u64) as usize;
    let units = words[mask];
    let there = words[end];
    words[end] = sum(there, units);
    words[mask] = 0;
    Tally {
        present: remaining(t.present, there),
        aside: Units(sum(t.aside.0, units)),
    }
}

// The contents `mask` are emptied, if they have a place to lose.
#[tactic(auto, unfolding(crate::specs::Plan::emptied))]
fn empty(words: &mut [u64], masks: usize, held: Option<usize>, mask: usize, t: Tally) -> Tally
    requires { (masks + masks ≤ length words.old) × (mask < masks) }
    ensures { plan_of words.new result ≡ cond (not (eqb (lowered places held mask) mask)) (emptied masks held mask (plan_of words.old t)) (plan_of words.old t) }
{
    let low = lower(mask as u64, held);
    if low == mask as u64 {
        return t;
    }
    words[masks + mask] = low;
    pour(words, masks, mask, t)
}

// Whether there are units, fewer than `bound`.
fn is_few(units: u64, bound: u64) -> bool
    ensures { result ≡ few bound units }
{
    if units == 0 {
        return false;
    }
    units < bound
}

// Whether none of four has units.
#[tactic(auto, unfolding(crate::specs::Next::none_of_four))]
fn none_of_four(a: u64, b: u64, c: u64, d: u64) -> bool
    ensures { result ≡ none_of_four a b c d }
{
    if a != 0 {
        return false;
    }
    if b != 0 {
        return false;
    }
    if c != 0 {
        return false;
    }
    d == 0
}

// The highest of the four masks above `low` with fewer than `bound` units, but some; 0 where there is none. Where none of them has units, one test says so.
#[tactic(auto, unfolding(crate::specs::Next::none_of_four, crate::specs::Next::highest))]
fn few_of_four(words: &[u64], low: usize, bound: u64) -> usize
    requires { low + 4 < length words.now }
    ensures { result ≡ few_of_four bound words.now low }
{
    let a = words[low + 4];
    let b = words[low + 3];
    let c = words[low + 2];
    let d = words[low + 1];
    if none_of_four(a, b, c, d) {
        return 0;
    }
    if is_few(a, bound) {
        return low + 4;
    }
    if is_few(b, bound) {
        return low + 3;
    }
    if is_few(c, bound) {
        return low + 2;
    }
    if is_few(d, bound) {
        return low + 1;
    }
    0
}

// The highest of the masks from `from` down to 1 with fewer than `bound` units, but some; 0 where there is none. It looks at one mask after the other.
#[tactic(auto, using(crate::proofs::Steps::next_most), unfolding(crate::specs::Next::next_few))]
fn next_singly(words: &[u64], from: usize, bound: u64) -> usize
    requires { from < length words.now }
    ensures { (result ≡ next_few bound words.now from) × (result ≤ from) }
{
    for m in (1..=from).rev() {
        if is_few(words[m], bound) {
            return m;
        }
    }
    0
}

// The same, four masks at a time.
#[tactic(auto, using(crate::proofs::Steps::four_none))]
fn next_few(words: &[u64], from: usize, bound: u64) -> usize
    requires { from < length words.now }
    ensures { (result ≡ next_few bound words.now from) × (result ≤ from) }
{
    let mut m: usize = from;
    // Four masks a step, from the top: what is below four is left to the search one by one.
    while 4 <= m {
        m -= 4;
        let found = few_of_four(words, m, bound);
        if 0 < found {
            return found;
        }
    }
    next_singly(words, m, bound)
}

// One level: the contents from the highest mask down, each emptied where it has fewer than `bound` units and more than `limit` contents remain.
#[tactic(auto, using(crate::proofs::Steps::level_few, crate::proofs::Steps::level_end, crate::proofs::Steps::level_none, crate::proofs::Steps::level_idle))]
fn walk(
    words: &mut [u64],
    masks: usize,
    held: Option<usize>,
    limit: usize,
    bound: u64,
    before: Tally,
) -> Tally
    requires { masks + masks ≤ length words.old }
    ensures { plan_of words.new result ≡ level limit bound masks held (masks - 1) (plan_of words.old before) }
{
    let mut t = before;
    let mut m: usize = masks;
    // From one mask with few units to the next below it: no index is counted.
    while 1 < m {
        if t.present <= limit {
            return t;
        }
        let next = next_few(words, m - 1, bound);
        if next == 0 {
            return t;
        }
        m = next;
        t = empty(words, masks, held, m, t);
    }
    t
}

// One level, if there may be something to do at it: no contents that have units have fewer than `low`, unless that is fewer than `bound`.
#[tactic(auto, using(crate::proofs::Steps::level_heavy))]
fn climb_one(
    words: &mut [u64],
    masks: usize,
    held: Option<usize>,
    limit: usize,
    bound: u64,
    low: u64,
    before: Tally,
) -> Tally
    requires { (masks + masks ≤ length words.old) × (bound ≤ low → NoneBelow bound masks words.old) }
    ensures { plan_of words.new result ≡ level limit bound masks held (masks - 1) (plan_of words.old before) }
{
    if bound <= low {
        return before;
    }
    walk(words, masks, held, limit, bound, before)
}

// Levels until at most `limit` contents remain; no contents that have units have fewer than `low`.
fn climb(
    words: &mut [u64],
    masks: usize,
    held: Option<usize>,
    limit: usize,
    low: u64,
    before: Tally,
) -> Tally
    requires { (masks + masks ≤ length words.old) × NoneBelow low masks words.old }
    ensures { plan_of words.new result ≡ all_levels limit masks held (plan_of words.old before) }
{
    let mut t = before;
    for height in 1..50u32 {
        if t.present <= limit {
            return t;
        }
        t = climb_one(words, masks, held, limit, 1 << height, low, t);
    }
    t
}

// All levels, from the units of each of the contents on, if there are more than `limit`.
#[tactic(auto, using(crate::proofs::Steps::lightest_least))]
fn climb_all(words: &mut [u64], masks: usize, held: Option<usize>, limit: usize) -> Tally
    requires { masks + masks ≤ length words.old }
    ensures { plan_of words.new result ≡ all_levels limit masks held (start masks words.old) }
{
    let t = Tally {
        present: count(words, masks),
        aside: Units(0),
    };
    if t.present <= limit {
        return t;
    }
    let low = least(words, masks);
    climb(words, masks, held, limit, low, t)
}

// The plan of a reduction to at most `limit` of `masks` contents, whose units `words` begins with: where the units of each go is in the words behind them. The block at `held` is
// never taken away.
#[tactic(auto, unfolding(crate::specs::Plan::planned))]
pub fn reduce(words: &mut [u64], masks: usize, held: Option<usize>, limit: usize) -> Tally
    ensures { plan_of words.new result ≡ planned limit masks held words.old }
{
    if words.len() / 2 < masks {
        return Tally {
            present: 0,
            aside: Units(0),
        };
    }
    keep_all(words, masks);
    climb_all(words, masks, held, limit)
}
