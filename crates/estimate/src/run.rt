// Accesses one after the other, and a table joined: each followed by its folds.
ghost use Rattle.std.specs.Prelude.{◌≡◌, true, ◌&&◌, ◌+◌, ◌*◌, ◌-◌, ◌≤◌, length, take, drop};
ghost use Rattle.rules.specs.Contents.{target_of};
ghost use Rattle.rules.specs.AnyTable.{entry_fits, join_one};
ghost use Rattle.rules.specs.Fold.{states, folded};
ghost use Rattle.rules.specs.Entries.{entry_of};
ghost use Rattle.rules.proofs.Entries.{Formed};
ghost use Rattle.rules.specs.Run.{advance as advance_of, run as run_over};
ghost use Rattle.rules.specs.Table.{listing, rising};
ghost use Rattle.words.specs.Tables.{table_of};
ghost use Rattle.estimate.specs.Rooms.{InPlace};
ghost use Rattle.estimate.specs.Working.{work_at, Ready};

use crate::fold::fold_down;
use crate::handed::pair_entry;
use crate::memory::copy;
use crate::merge::gather;
use crate::tally::{Joined, Tally};
use nodes::last::accessed;
use rules::{Cache, Units};
use states::both;
use tables::aim;

// The `n` states of the scratch folded to at most `limit`.
pub(crate) fn fold_scratch(work: &mut [u64], n: usize, limit: usize, aside: Units) -> Tally
    requires { (20480 + n * 5 ≤ length work.old) × (1 ≤ limit) × (rising (take n (drop 4096 (table_of work.old))) ≡ true) }
    ensures { InPlace (folded limit (record { table = take n (drop 4096 (table_of work.old)); aside = aside.0 })) 4096 result.states result.aside.0 (table_of work.old) (table_of work.new) }
{
    fold_down(&mut work[20480..], n, limit, aside)
}

// The `n` states of the scratch folded to at most `limit`, and put at place `at`.
pub(crate) fn settle(work: &mut [u64], at: usize, n: usize, aside: Units, limit: usize) -> Tally
    requires { (25920 ≤ length work.old) × (at + 64 ≤ 4096) × (n ≤ 1088) × (1 ≤ limit) × (limit ≤ 64) × (rising (take n (drop 4096 (table_of work.old))) ≡ true) }
    ensures { InPlace (folded limit (record { table = take n (drop 4096 (table_of work.old)); aside = aside.0 })) at result.states result.aside.0 (table_of work.old) (table_of work.new) }
{
    let folded = fold_scratch(work, n, limit, aside);
    copy(work, 4096, at, folded.states);
    folded
}

// An access to `block`, where `last` was accessed directly before, of the table of `tally.states` states at place `at`.
pub(crate) fn advance(
    work: &mut [u64],
    at: usize,
    tally: Tally,
    last: Option<u32>,
    block: u32,
    tracked: &[u32],
    cache: Cache,
    limit: usize,
) -> Tally
    requires { Ready cache tracked.now limit 4095 at tally.states tally.aside.0 work.old }
    ensures { InPlace (advance_of cache.ways limit (target_of cache.sets tracked.now last block) (work_at at tally.states tally.aside.0 work.old)) at result.states result.aside.0 (table_of work.old) (table_of work.new) }
{
    let x = aim(tracked, cache.sets, last, block);
    let gathered = gather(work, at, tally.states, x, cache.ways as u64, tally.aside);
    settle(work, at, gathered.states, gathered.aside, limit)
}

// The accesses of a run one after the other, where `last` was accessed directly before them.
pub(crate) fn run(
    work: &mut [u64],
    at: usize,
    tally: Tally,
    last: Option<u32>,
    accesses: &[u32],
    tracked: &[u32],
    cache: Cache,
    limit: usize,
) -> Tally
    requires { (length accesses.now ≤ 4096) × Ready cache tracked.now limit (4096 - length accesses.now) at tally.states tally.aside.0 work.old }
    ensures { InPlace (run_over cache.ways cache.sets limit tracked.now last accesses.now (work_at at tally.states tally.aside.0 work.old)) at result.states result.aside.0 (table_of work.old) (table_of work.new) }
{
    let mut so_far = tally;
    let mut before = last;
    for block in accesses {
        so_far = advance(work, at, so_far, before, *block, tracked, cache, limit);
        before = accessed(*block);
    }
    so_far
}

// The table of `m` states at place `other` joined to that at place `at`, by the entry with this number.
pub(crate) fn join_to(
    work: &mut [u64],
    at: usize,
    begun: Joined,
    other: usize,
    m: usize,
    limit: usize,
    counts: &[u64],
    rows: &[u64],
    number: usize,
) -> Joined
    requires { (25920 ≤ length work.old) × (at + 64 ≤ 4096) × (begun.states ≤ 64) × (other + 64 ≤ 4096) × (m ≤ 64) × (1 ≤ limit) × (limit ≤ 64) × Formed (length counts.now) counts.now rows.now }
    ensures { InPlace (join_one states (entry_of counts.now rows.now number) limit (work_at at begun.states begun.aside.0 work.old) (take m (drop other (table_of work.old)))) at result.states result.aside.0 (table_of work.old) (table_of work.new) × (result.fits ≡ (begun.fits && entry_fits listing (entry_of counts.now rows.now number) (work_at at begun.states begun.aside.0 work.old).table (take m (drop other (table_of work.old))))) }
{
    let paired = pair_entry(work, at, begun.states, other, m, counts, rows, number);
    let before = begun.aside;
    let done = settle(work, at, paired.states, before, limit);
    let aside = done.aside;
    Joined {
        states: done.states,
        aside,
        fits: both(begun.fits, paired.fits),
    }
}
