// What is left over of a table's states, and the part of each that one way gets. Both are found by one division, of those states only that can lose a block: these are whole runs, as their heads
// say.
ghost use Rattle.std.specs.Prelude.{◌≡◌, true, [], ◌∷◌, map, ℕ, ◌+◌, ◌*◌, ◌/◌, ◌%◌, ◌^◌, ◌≤◌, ◌<◌, length, get_or, take, drop};
ghost use Rattle.basics.specs.Sums.{sum_over};
ghost use Rattle.rules.specs.Contents.{with};
ghost use Rattle.rules.specs.Shape.{Every};
ghost use Rattle.rules.specs.Step.{left_over, access_aside};
ghost use Rattle.rules.specs.Table.{units_of, rising, add, state_at};
ghost use Rattle.rules.specs.Units.{whole};
ghost use Rattle.words.specs.Tables.{table_of};
ghost use Rattle.estimate.specs.Following.{Placed, Workable};
ghost use Rattle.estimate.specs.Merging.{alone};
ghost use Rattle.estimate.specs.Rooms.{InScratch};
ghost use Rattle.estimate.specs.Sharing.{share_of};
ghost use Rattle.estimate.specs.Splitting.{rest_in, SplitIn, Parted};
ghost use Rattle.estimate.specs.ToCome.{run_in, Whole, Runs};

use crate::memory::load;
use crate::placing::put_about;
use heads::{keeps_in, length_in, start_in};
use rules::{State, Target, Units};
use states::step::held_of;
use tables::with_block;

// The states in the scratch, the place of the one that came last, and how much is left over so far.
#[derive(Clone, Copy)]
pub(crate) struct Rests {
    pub states: usize,
    pub at: usize,
    pub left: u64,
}

// `rest` units, left over of the state at place `place`, added to the scratch as a state that holds `own` only, and counted.
pub(crate) fn add_rest(work: &mut [u64], rests: Rests, place: usize, own: u64, rest: u64) -> Rests
    requires { (place * 5 + 5 ≤ length work.old) × ((state_at (table_of work.old) place).misses ≤ 4095) × (20480 + rests.states * 5 + 5 ≤ length work.old) × (rising (take rests.states (drop 4096 (table_of work.old))) ≡ true) × (rests.left + rest < 2 ^ 64) }
    ensures { InScratch (add (share_of own (state_at (table_of work.old) place) rest ∷ []) (take rests.states (drop 4096 (table_of work.old)))) result.states (table_of work.old) (table_of work.new) × (result.left ≡ rests.left + rest) }
{
    if rest == 0 {
        return rests;
    }
    let s = load(work, place);
    let filled = s.filled;
    let t = State {
        mask: own,
        misses: s.misses + 1,
        filled,
        units: Units(rest),
    };
    let put = put_about(&mut work[20480..], rests.at, rests.states, t);
    Rests {
        states: put.states,
        at: put.at,
        left: rests.left + rest,
    }
}

// The `m` states at place `from + start`, which can lose a block, split: the parts of one way go to `parts` from place `start` on, and what is left over is added to the scratch, and counted.
pub(crate) fn split_run(
    work: &mut [u64],
    parts: &mut [u64],
    rests: Rests,
    from: usize,
    start: usize,
    m: usize,
    own: u64,
    ways: u64,
) -> Rests
    requires { (from + start + m ≤ 4096) × (start + m ≤ length parts.old) × (25920 ≤ length work.old) × (rests.states + m ≤ 1088) × (rests.left + m * whole < 2 ^ 64) × (rising (take rests.states (drop 4096 (table_of work.old))) ≡ true) × Every (λ s. (s.misses ≤ 4095) × (units_of s ≤ whole)) (take m (drop (from + start) (table_of work.old))) }
    ensures in_scratch { InScratch (add (map (rest_in ways own) (take m (drop (from + start) (table_of work.old)))) (take rests.states (drop 4096 (table_of work.old)))) result.states (table_of work.old) (table_of work.new) }
    ensures left_value { result.left ≡ rests.left + sum_over (λ s. units_of s % ways) (take m (drop (from + start) (table_of work.old))) }
    ensures by_index { ((j : ℕ) → j < m → get_or parts.new (start + j) 0 ≡ units_of (state_at (table_of work.old) (from + start + j)) / ways) × Parted ways from (table_of work.old) parts.old parts.new }
{
    let mut so_far = rests;
    for i in 0..m {
        let place = from + start + i;
        let share = Units(work[place * 5 + 4]).split(ways);
        let part = share.part;
        let rest = share.rest;
        parts[start + i] = part.0;
        so_far = add_rest(work, so_far, place, own, rest.0);
    }
    so_far
}

// The run of `head` in the table of the `m` states at place `from`, of which nothing has come, split if it can lose a block.
pub(crate) fn split_if(
    work: &mut [u64],
    parts: &mut [u64],
    rests: Rests,
    from: usize,
    m: usize,
    head: u64,
    x: Target,
    own: u64,
    ways: u64,
) -> Rests
    requires { Placed x × (ways ≤ 16) × (own ≡ with 0 x.place) × (m ≤ 64) × (from + m ≤ 4096) × (25920 ≤ length work.old) × (64 ≤ length parts.old) × (rests.states ≤ 64) × (rests.left ≤ 64 * whole) × (rising (take rests.states (drop 4096 (table_of work.old))) ≡ true) × Every (Workable ways x) (take m (drop from (table_of work.old))) × Whole ways x (take m (drop from (table_of work.old))) head }
    ensures in_scratch { InScratch (add (map (alone ways x) (run_in (take m (drop from (table_of work.old))) head)) (take rests.states (drop 4096 (table_of work.old)))) result.states (table_of work.old) (table_of work.new) }
    ensures left_value { result.left ≡ rests.left + sum_over (left_over ways x) (run_in (take m (drop from (table_of work.old))) head) }
    ensures split_in { SplitIn ways x (take m (drop from (table_of work.old))) parts.new head × Parted ways from (table_of work.old) parts.old parts.new }
{
    if !keeps_in(head) {
        return rests;
    }
    let start = start_in(head);
    if held_of(work[(from + start) * 5], x) == 0 {
        return rests;
    }
    split_run(work, parts, rests, from, start, length_in(head), own, ways)
}

// The runs of the first `count` heads, which are those of the `m` states at place `from`, split each if it can lose a block: what is left over of the table, in the scratch, which is empty at first, and
// counted.
pub(crate) fn split_runs(
    work: &mut [u64],
    parts: &mut [u64],
    heads: &[u64],
    count: usize,
    from: usize,
    m: usize,
    x: Target,
    ways: u64,
) -> Rests
    requires { Placed x × (ways ≤ 16) × (m ≤ 64) × (from + m ≤ 4096) × (25920 ≤ length work.old) × (count ≤ length heads.now) × (64 ≤ length parts.old) × Every (Workable ways x) (take m (drop from (table_of work.old))) × Runs ways x (take m (drop from (table_of work.old))) (take count heads.now) }
    ensures in_scratch { InScratch (add (map (alone ways x) (take m (drop from (table_of work.old)))) []) result.states (table_of work.old) (table_of work.new) }
    ensures left_value { result.left ≡ access_aside ways x (take m (drop from (table_of work.old))) }
    ensures every { Every (SplitIn ways x (take m (drop from (table_of work.old))) parts.new) (take count heads.now) }
{
    let place = x.place;
    let own = with_block(0, place);
    let mut so_far = Rests {
        states: 0,
        at: 0,
        left: 0,
    };
    for head in &heads[..count] {
        so_far = split_if(work, parts, so_far, from, m, *head, x, own, ways);
    }
    so_far
}
