// Accesses one after the other, and a table joined: each followed by its folds.
ghost use Rattle.std.specs.Prelude.{◌≡◌, true, ◌+◌, ◌*◌, ◌-◌, ◌≤◌, length, take, drop, None};
ghost use Rattle.rules.specs.Contents.{target_of};
ghost use Rattle.words.specs.BestTables.{table_of};
ghost use Rattle.best.specs.Tables.{rising, work_of, folded, join, advance as advance_of, run as run_over};
ghost use Rattle.best.specs.Rooms.{InPlace};
ghost use Rattle.best.specs.Working.{work_at, Ready};

use crate::access::gather;
use crate::fold::fold_down;
use crate::join::pair_up;
use crate::memory::copy;
use tables::aim;

// The `n` states of the scratch folded to at most `limit`; how many are left.
pub(crate) fn fold_scratch(work: &mut [u64], n: usize, limit: usize) -> usize
    requires { (20480 + n * 5 ≤ length work.old) × (1 ≤ limit) × (rising (take n (drop 4096 (table_of work.old))) ≡ true) }
    ensures { InPlace (folded limit (work_of (take n (drop 4096 (table_of work.old))))) 4096 result (table_of work.old) (table_of work.new) }
{
    fold_down(&mut work[20480..], n, limit)
}

// The `n` states of the scratch folded to at most `limit`, and put at place `at`; how many they then are.
pub(crate) fn settle(work: &mut [u64], at: usize, n: usize, limit: usize) -> usize
    requires { (25920 ≤ length work.old) × (at + 64 ≤ 4096) × (n ≤ 1088) × (1 ≤ limit) × (limit ≤ 64) × (rising (take n (drop 4096 (table_of work.old))) ≡ true) }
    ensures { InPlace (folded limit (work_of (take n (drop 4096 (table_of work.old))))) at result (table_of work.old) (table_of work.new) }
{
    let folded = fold_scratch(work, n, limit);
    copy(work, 4096, at, folded);
    folded
}

// An access to `block` of the table of `n` states at place `at`; how many states it then has.
pub(crate) fn advance(
    work: &mut [u64],
    at: usize,
    n: usize,
    block: u32,
    tracked: &[u32],
    sets: u32,
    ways: u32,
    limit: usize,
) -> usize
    requires { Ready sets ways tracked.now limit 4095 at n work.old }
    ensures { InPlace (advance_of ways limit (target_of sets tracked.now None block) (work_at at n work.old)) at result (table_of work.old) (table_of work.new) }
{
    let x = aim(tracked, sets, None, block);
    let gathered = gather(work, at, n, x, ways as u64);
    settle(work, at, gathered, limit)
}

// The accesses of a run one after the other; how many states the table then has.
pub(crate) fn run(
    work: &mut [u64],
    at: usize,
    n: usize,
    accesses: &[u32],
    tracked: &[u32],
    sets: u32,
    ways: u32,
    limit: usize,
) -> usize
    requires { (length accesses.now ≤ 4096) × Ready sets ways tracked.now limit (4096 - length accesses.now) at n work.old }
    ensures { InPlace (run_over ways sets limit tracked.now None accesses.now (work_at at n work.old)) at result (table_of work.old) (table_of work.new) }
{
    let mut so_far = n;
    for block in accesses {
        so_far = advance(work, at, so_far, *block, tracked, sets, ways, limit);
    }
    so_far
}

// The table of `m` states at place `other` joined to that of `n` states at place `at`; how many states that then has.
pub(crate) fn join_to(
    work: &mut [u64],
    at: usize,
    n: usize,
    other: usize,
    m: usize,
    limit: usize,
) -> usize
    requires { (25920 ≤ length work.old) × (at + 64 ≤ 4096) × (n ≤ 64) × (other + 64 ≤ 4096) × (m ≤ 64) × (1 ≤ limit) × (limit ≤ 64) }
    ensures { InPlace (folded limit (work_of (join (take n (drop at (table_of work.old))) (take m (drop other (table_of work.old)))))) at result (table_of work.old) (table_of work.new) }
{
    let k = pair_up(work, at, n, other, m);
    settle(work, at, k, limit)
}
