// One access by merging. The table's states are taken in runs: those of one mask that follow each other, and fill an empty way or do not. What is left over of each state comes first, each
// in its place. Then the runs come in one stream after the other, that of the lowest contents first. What becomes of a run in one stream stands in order, and is merged into the
// scratch: the place where a state belongs is never before that of the one that came before it, and mostly behind all others.
ghost use Rattle.std.specs.Prelude.{◌≡◌, ◌≢◌, true, [], ◌∷◌, map, suc, ◌+◌, ◌*◌, ◌≤◌, ◌<◌, length, take, drop};
ghost use Rattle.rules.specs.Contents.{hits, shared, size};
ghost use Rattle.rules.specs.Ordered.{insert};
ghost use Rattle.rules.specs.Shape.{Every};
ghost use Rattle.rules.specs.Step.{access, access_aside};
ghost use Rattle.rules.specs.Table.{units_of, order, plus as plus_of, rising, add, state_at};
ghost use Rattle.rules.specs.Units.{whole, more};
ghost use Rattle.words.specs.Tables.{table_of};
ghost use Rattle.estimate.specs.Following.{Placed, Workable};
ghost use Rattle.estimate.specs.Going.{times_of, Goes};
ghost use Rattle.estimate.specs.Merging.{kept_of, part, comes as comes_of, fills as fills_of, InRun, Onward, Words};
ghost use Rattle.estimate.specs.Placing.{place_of, Passed};
ghost use Rattle.estimate.specs.Rooms.{InScratch};

use crate::access::gather_each;
use crate::coming::put_heads;
use crate::memory::load;
use crate::placing::{Reached, put_on};
use crate::rests::split_runs;
use crate::run_list::list_runs;
use crate::shares::{lay_shares, put_shares};
use crate::tally::Tally;
use rules::{State, Target, Units};
use states::step::{fuller, goes_on, missed};
use tables::size_of;

// Of `units`, those that lose nothing, where the blocks of `risk` can be lost.
pub(crate) fn kept_of(risk: u64, ways: u64, units: Units) -> Units
    requires { (size risk ≤ ways) × (ways ≤ 16) × (units.0 ≤ whole) }
    ensures { result.0 ≡ kept_of ways risk units.0 }
{
    if risk == 0 {
        return units;
    }
    let share = units.split(ways);
    let part = share.part;
    Units((ways - size_of(risk)) * part.0)
}

// What becomes of `s` in stream `k`, which loses nothing and has something of such states.
pub(crate) fn part_of(s: State, x: Target, ways: u64, k: usize) -> State
    requires { Placed x × Workable ways x s × (ways ≤ 16) × (comes_of (hits x s.mask) (fills_of ways x s) (shared s.mask x.mates) k ≡ true) × (16 ≤ k) }
    ensures { (result ≡ part ways x k s) × Words s }
{
    if 17 < k {
        return s;
    }
    let u = s.units;
    if k == 17 {
        return missed(fuller(s, x, ways), x, s.mask, u);
    }
    missed(s, x, s.mask, kept_of(s.mask & x.mates, ways, u))
}

// `s` put into the first `n` states of the scratch, of which the first `from` stand before it.
pub(crate) fn put_to_scratch(work: &mut [u64], from: usize, n: usize, s: State) -> Reached
    requires { (from ≤ n) × (20480 + n * 5 ≤ length work.old) × (20480 + length (insert order plus_of s (take n (drop 4096 (table_of work.old)))) * 5 ≤ length work.old) × (rising (take n (drop 4096 (table_of work.old))) ≡ true) × Passed s (take n (drop 4096 (table_of work.old))) from }
    ensures { InScratch (insert order plus_of s (take n (drop 4096 (table_of work.old)))) result.states (table_of work.old) (table_of work.new) × (result.at ≡ suc (place_of s (take n (drop 4096 (table_of work.old))))) }
{
    put_on(&mut work[20480..], from, n, s)
}

// What becomes of `s` in stream `k`, which loses nothing, the next state of a run, put to the scratch, where the run has come to `reached`.
pub(crate) fn put_next(
    work: &mut [u64],
    reached: Reached,
    s: State,
    x: Target,
    ways: u64,
    k: usize,
) -> Reached
    requires { Placed x × Workable ways x s × (ways ≤ 16) × (comes_of (hits x s.mask) (fills_of ways x s) (shared s.mask x.mates) k ≡ true) × (reached.at ≤ reached.states) × (20480 + reached.states * 5 ≤ length work.old) × (20480 + length (add (part ways x k s ∷ []) (take reached.states (drop 4096 (table_of work.old)))) * 5 ≤ length work.old) × (rising (take reached.states (drop 4096 (table_of work.old))) ≡ true) × (Words s → units_of (part ways x k s) ≢ 0 → Passed (part ways x k s) (take reached.states (drop 4096 (table_of work.old))) reached.at) × (16 ≤ k) }
    ensures { InScratch (add (part ways x k s ∷ []) (take reached.states (drop 4096 (table_of work.old)))) result.states (table_of work.old) (table_of work.new) × Onward ways x k s (take reached.states (drop 4096 (table_of work.old))) reached.at result.at }
{
    let t = part_of(s, x, ways, k);
    let u = t.units;
    if u.0 == 0 {
        return reached;
    }
    put_to_scratch(work, reached.at, reached.states, t)
}

// The `m` states at place `from`, a run, put in stream `k`, which loses nothing, to the first `n` states of the scratch, of which the first `near` have contents below those that it comes
// to; how many states it then has.
pub(crate) fn put_whole(
    work: &mut [u64],
    n: usize,
    near: usize,
    from: usize,
    m: usize,
    x: Target,
    ways: u64,
    k: usize,
) -> usize
    requires { Placed x × (ways ≤ 16) × (from + m ≤ 4096) × (25920 ≤ length work.old) × (n ≡ length (take n (drop 4096 (table_of work.old)))) × (rising (take n (drop 4096 (table_of work.old))) ≡ true) × (length (add (map (part ways x k) (take m (drop from (table_of work.old)))) (take n (drop 4096 (table_of work.old)))) ≤ 1088) × (rising (take m (drop from (table_of work.old))) ≡ true) × Every (Workable ways x) (take m (drop from (table_of work.old))) × Every (λ s. comes_of (hits x s.mask) (fills_of ways x s) (shared s.mask x.mates) k ≡ true) (take m (drop from (table_of work.old))) × (near ≤ n) × Every (λ s. Every (λ t. t.mask < (part ways x k s).mask) (take near (take n (drop 4096 (table_of work.old))))) (take m (drop from (table_of work.old))) × (16 ≤ k) }
    ensures { InScratch (add (map (part ways x k) (take m (drop from (table_of work.old)))) (take n (drop 4096 (table_of work.old)))) result (table_of work.old) (table_of work.new) }
{
    let mut so_far = Reached {
        states: n,
        at: near,
    };
    for i in 0..m {
        let s = load(work, from + i);
        so_far = put_next(work, so_far, s, x, ways, k);
    }
    so_far.states
}

// The parts of how many ways come in stream `k`, where the blocks of `held` can be lost; 0 where nothing is split.
pub(crate) fn times_of(held: u64, ways: u64, k: usize) -> u64
    requires { k ≡ 16 → size held ≤ ways }
    ensures { result ≡ times_of ways held k }
{
    if k < 16 {
        return 1;
    }
    if 16 < k {
        return 0;
    }
    if held == 0 {
        return 0;
    }
    ways - size_of(held)
}

// The `m` states at place `from + start`, a run of contents `mask`, put in stream `k`, where they come to the contents `to`, to the first `n` states of the scratch, of which the first
// `near` have contents below; how many states it then has. Their parts of one way stand in `parts`, from place `start` on.
pub(crate) fn put_run(
    work: &mut [u64],
    parts: &[u64],
    n: usize,
    near: usize,
    from: usize,
    start: usize,
    m: usize,
    x: Target,
    ways: u64,
    k: usize,
    to: u64,
    mask: u64,
) -> usize
    requires { Placed x × (ways ≤ 16) × (1 ≤ m) × (from + start + m ≤ 4096) × (start + m ≤ length parts.now) × (25920 ≤ length work.old) × (n ≡ length (take n (drop 4096 (table_of work.old)))) × (rising (take n (drop 4096 (table_of work.old))) ≡ true) × (length (add (map (part ways x k) (take m (drop (from + start) (table_of work.old)))) (take n (drop 4096 (table_of work.old)))) ≤ 1088) × (near ≤ n) × Every (λ t. t.mask < to) (take near (take n (drop 4096 (table_of work.old)))) × Goes ways x k mask to (take m (drop (from + start) (table_of work.old))) (take m (drop start parts.now)) }
    ensures { InScratch (add (map (part ways x k) (take m (drop (from + start) (table_of work.old)))) (take n (drop 4096 (table_of work.old)))) result (table_of work.old) (table_of work.new) }
{
    let times = times_of(mask & x.mates, ways, k);
    if times == 0 {
        return put_whole(work, n, near, from + start, m, x, ways, k);
    }
    if n <= near {
        return lay_shares(work, parts, n, from, start, m, to, times);
    }
    put_shares(work, parts, n, near, from, start, m, to, times)
}

// How many of the `m` states at place `from`, the first of which goes on with a run, do.
pub(crate) fn run_of(
    work: &[u64],
    from: usize,
    m: usize,
    x: Target,
    ways: u64,
    mask: u64,
    filling: bool,
) -> usize
    requires { (x.set < 16) × (1 ≤ m) × ((from + m) * 5 ≤ length work.now) × InRun ways x mask filling (state_at (table_of work.now) from) }
    ensures { (1 ≤ result) × (result ≤ m) × Every (InRun ways x mask filling) (take result (drop from (table_of work.now))) }
{
    for i in 1..m {
        if !goes_on(load(work, from + i), x, ways, mask, filling) {
            return i;
        }
    }
    m
}

// The states that follow the `m` states at place `from`, in the scratch, which is empty at first. Few states are not worth the merging.
pub(crate) fn gather(
    work: &mut [u64],
    from: usize,
    m: usize,
    x: Target,
    ways: u64,
    aside: Units,
) -> Tally
    requires { Placed x × (ways ≤ 16) × (m ≤ 64) × (from + m ≤ 4096) × (25920 ≤ length work.old) × (aside.0 ≤ whole) × Every (Workable ways x) (take m (drop from (table_of work.old))) × (rising (take m (drop from (table_of work.old))) ≡ true) }
    ensures in_scratch { InScratch (access ways x (take m (drop from (table_of work.old)))) result.states (table_of work.old) (table_of work.new) }
    ensures aside_value { result.aside.0 ≡ more aside.0 (access_aside ways x (take m (drop from (table_of work.old)))) }
{
    if m <= 3 {
        return gather_each(work, from, m, x, ways, aside);
    }
    let mut parts: [u64; 64] = [0; 64];
    let mut heads: [u64; 65] = [18446744073709551615; 65];
    let count = list_runs(work, &mut heads, from, m, x, ways);
    let rests = split_runs(work, &mut parts, &heads, count, from, m, x, ways);
    let states = put_heads(
        work,
        &parts,
        &mut heads,
        count,
        rests.states,
        from,
        m,
        x,
        ways,
    );
    let aside = aside.add(Units(rests.left));
    Tally { states, aside }
}
