// One access: the states that follow those of a table.
ghost use Rattle.std.specs.Prelude.{◌≡◌, true, cond, map, suc, ◌+◌, ◌*◌, ◌≤◌, ◌<◌, length, take, drop};
ghost use Rattle.rules.specs.Contents.{without, held};
ghost use Rattle.rules.specs.Best.{misses_of, hits_of, open_state, hit as hit_of, missed as missed_of};
ghost use Rattle.rules.specs.Shape.{Every, Listed};
ghost use Rattle.words.specs.BestTables.{table_of};
ghost use Rattle.best.specs.Tables.{rising, add as add_of, miss as miss_of, successors, access};
ghost use Rattle.best.specs.Placing.{Added};
ghost use Rattle.best.specs.Rooms.{InScratch};
ghost use Rattle.best.specs.Following.{lost_at, Workable};

use crate::memory::load;
use crate::placing::add;
use rules::{BestState, Hits, Misses, Target, Units};
use tables::{has_block, has_place, next_place, size_of, with_block, without_place};

// One hit more, and nothing else changes.
pub(crate) fn hit(s: BestState) -> BestState
    requires { hits_of s ≤ 4095 }
    ensures { result ≡ hit_of s }
{
    let misses = s.misses;
    let h = s.hits;
    let units = s.units;
    BestState {
        exact: true,
        mask: s.mask,
        misses,
        hits: Hits(h.0 + 1),
        units,
    }
}

// One miss more: `mask` with the accessed block, all that is held, and `units`.
pub(crate) fn missed(s: BestState, x: Target, mask: u64, units: Units) -> BestState
    requires { Listed 16 x.place × (misses_of s ≤ 4095) }
    ensures { result ≡ missed_of x s mask units.0 }
{
    let place = x.place;
    let m = s.misses;
    let hits = s.hits;
    BestState {
        exact: true,
        mask: with_block(mask, place),
        misses: Misses(m.0 + 1),
        hits,
        units,
    }
}

// One miss more, with anything held.
pub(crate) fn opened(s: BestState, units: Units) -> BestState
    requires { misses_of s ≤ 4095 }
    ensures { result ≡ open_state (suc (misses_of s)) (hits_of s) units.0 }
{
    let m = s.misses;
    let hits = s.hits;
    BestState {
        exact: false,
        mask: 0,
        misses: Misses(m.0 + 1),
        hits,
        units,
    }
}

// What a way that holds the block at place `at` makes of `s`, where that block is one of `risk`.
pub(crate) fn lose_one(
    words: &mut [u64],
    n: usize,
    s: BestState,
    x: Target,
    risk: u64,
    part: Units,
    at: usize,
) -> usize
    requires { Listed 16 x.place × (misses_of s ≤ 4095) × (at < 16) × (n * 5 + 5 ≤ length words.old) × (rising (take n (table_of words.old)) ≡ true) }
    ensures { Added (lost_at x s risk part.0 at) n result (table_of words.old) (table_of words.new) }
{
    if has_place(risk, at) {
        return add(words, n, missed(s, x, without_place(s.mask, at), part));
    }
    n
}

// Each block of `risk` is lost in turn.
pub(crate) fn lose_each(
    words: &mut [u64],
    n: usize,
    s: BestState,
    x: Target,
    risk: u64,
    part: Units,
) -> usize
    requires { Listed 16 x.place × (misses_of s ≤ 4095) × ((n + 16) * 5 ≤ length words.old) × (rising (take n (table_of words.old)) ≡ true) }
    ensures { Added (map (λ e. missed_of x s (without s.mask e) part.0) (held risk)) n result (table_of words.old) (table_of words.new) }
{
    let mut m = n;
    let mut at = next_place(risk, 0);
    // From one block of `risk` to the next, and not from place to place: no index is counted.
    while at < 16 {
        m = lose_one(words, m, s, x, risk, part, at);
        at = next_place(risk, at + 1);
    }
    m
}

// `units`, where `yes`, otherwise none.
pub(crate) fn units_if(yes: bool, units: Units) -> Units
    ensures { result.0 ≡ cond yes units.0 0 }
{
    if yes {
        return units;
    }
    Units(0)
}

// `s` is exact and does not hold the block: each way of its set has an equal part of the units; what is left over goes with the others where no
// block can be lost, and becomes open otherwise.
pub(crate) fn miss(words: &mut [u64], n: usize, s: BestState, x: Target, ways: u64) -> usize
    requires { Listed 16 x.place × Workable ways x s × (ways ≤ 16) × ((n + 17) * 5 ≤ length words.old) × (rising (take n (table_of words.old)) ≡ true) }
    ensures { Added (miss_of ways x s) n result (table_of words.old) (table_of words.new) }
{
    let u = s.units;
    let share = u.split(ways);
    let part = share.part;
    let rest = share.rest;
    let risk = s.mask & x.mates;
    let lost = lose_each(words, n, s, x, risk, part);
    let size = size_of(risk);
    let sent = units_if(size == 0, rest);
    let left = units_if(size != 0, rest);
    let others = Units((ways - size) * part.0 + sent.0);
    let kept = add(words, lost, missed(s, x, s.mask, others));
    add(words, kept, opened(s, left))
}

// The states that follow `s`: an open state stays as it is, and never counts again.
pub(crate) fn follow(words: &mut [u64], n: usize, s: BestState, x: Target, ways: u64) -> usize
    requires { Listed 16 x.place × Workable ways x s × (ways ≤ 16) × ((n + 17) * 5 ≤ length words.old) × (rising (take n (table_of words.old)) ≡ true) }
    ensures { Added (successors ways x s) n result (table_of words.old) (table_of words.new) }
{
    let place = x.place;
    if s.exact {
        if has_block(s.mask, false, place) {
            return add(words, n, hit(s));
        }
        return miss(words, n, s, x, ways);
    }
    add(words, n, s)
}

// The states that follow `s` added to the first `n` states of the scratch; how many states it then has.
pub(crate) fn follow_to_scratch(
    work: &mut [u64],
    n: usize,
    s: BestState,
    x: Target,
    ways: u64,
) -> usize
    requires { Listed 16 x.place × Workable ways x s × (ways ≤ 16) × (20480 + (n + 17) * 5 ≤ length work.old) × (rising (take n (drop 4096 (table_of work.old))) ≡ true) }
    ensures { InScratch (add_of (successors ways x s) (take n (drop 4096 (table_of work.old)))) result (table_of work.old) (table_of work.new) }
{
    follow(&mut work[20480..], n, s, x, ways)
}

// The states that follow the `m` states at place `from`, added in the scratch, which is empty at first; how many states it then has.
pub(crate) fn gather(work: &mut [u64], from: usize, m: usize, x: Target, ways: u64) -> usize
    requires { Listed 16 x.place × (1 ≤ ways) × (ways ≤ 16) × (m ≤ 64) × (from + m ≤ 4096) × (25920 ≤ length work.old) × Every (Workable ways x) (take m (drop from (table_of work.old))) }
    ensures { InScratch (access ways x (take m (drop from (table_of work.old)))) result (table_of work.old) (table_of work.new) }
{
    let mut n: usize = 0;
    for i in 0..m {
        let s = load(work, from + i);
        n = follow_to_scratch(work, n, s, x, ways);
    }
    n
}
