// Nodes one after the other, each from the joined tables of its predecessors.
ghost use Rattle.std.specs.Prelude.{◌≡◌, ◌&&◌, ◌+◌, ◌-◌, ◌*◌, ◌≤◌, ◌<◌, length};
ghost use Rattle.rules.specs.Input.{input_of, edges_of, predecessors};
ghost use Rattle.rules.specs.Shape.{Every};
ghost use Rattle.rules.specs.Run.{run as run_over};
ghost use Rattle.rules.specs.AnyTable.{behind};
ghost use Rattle.rules.specs.Graph.{enter_by as enter_of, join_all_by, worked_by, joins_fit, enter_fits, all_fit};
ghost use Rattle.rules.specs.Entries.{entry_of};
ghost use Rattle.rules.proofs.Entries.{Formed};
ghost use Rattle.rules.proofs.Refusals.{Checked};
ghost use Rattle.words.specs.Tables.{table_of};
ghost use Rattle.estimate.specs.Rooms.{InPlace, NodeDone, worked_in};
ghost use Rattle.tables.specs.Edges.{came_from};
ghost use Rattle.estimate.specs.Working.{work_at, start_of, Startable};

use crate::memory::{copy, store};
use crate::run::{join_to, run};
use crate::slots::{count, seal};
use crate::tally::{Joined, Tally};
use nodes::last::{last_after, last_before};
use nodes::{after_edge, aside_at_start};
use pairings::joins_to;
use rules::{Cache, State, Units};
use states::both;
use states::filled::start_of;
use tables::next_edge;

// The set-aside count over the nodes so far, and whether every pairing handed in for their joins is accepted.
#[derive(Clone, Copy)]
pub(crate) struct Done {
    pub aside: Units,
    pub fits: bool,
}

// The tables of the predecessors, by the edges from place `after` on, joined one at a time to that of node `to`; `joins` joins come before these.
pub(crate) fn join_others(
    work: &mut [u64],
    to: usize,
    first: Joined,
    edges: &[u32],
    after: usize,
    limit: usize,
    counts: &[u64],
    rows: &[u64],
    joins: usize,
) -> Joined
    requires { (25920 ≤ length work.old) × (to < 64) × (first.states ≤ 64) × (after ≤ length edges.now) × (1 ≤ limit) × (limit ≤ 64) × Every (λ p. p < to) (came_from edges.now to after) × Formed (length counts.now) counts.now rows.now × (joins ≤ length edges.now) }
    ensures { InPlace (join_all_by (behind joins (entry_of counts.now rows.now)) limit (worked_in to first.aside.0 (table_of work.old)) (came_from edges.now to after) (work_at (to * 64) first.states first.aside.0 work.old)) (to * 64) result.states result.aside.0 (table_of work.old) (table_of work.new) × (result.fits ≡ (first.fits && joins_fit (behind joins (entry_of counts.now rows.now)) limit (worked_in to first.aside.0 (table_of work.old)) (came_from edges.now to after) (work_at (to * 64) first.states first.aside.0 work.old))) }
{
    let mut so_far = first;
    let mut number = joins;
    let mut e = next_edge(edges, to, after);
    // From one edge into the node to the next, and not from edge to edge: no index is counted.
    while e < edges.len() {
        let from = edges[e] as usize * 64;
        let m = count(work, from);
        so_far = join_to(work, to * 64, so_far, from, m, limit, counts, rows, number);
        number += 1;
        e = next_edge(edges, to, e + 2);
    }
    so_far
}

// What node `to` starts from, in its slot; `joins` joins come before its own.
pub(crate) fn enter(
    work: &mut [u64],
    to: usize,
    edges: &[u32],
    aside: Units,
    cache: Cache,
    limit: usize,
    counts: &[u64],
    rows: &[u64],
    joins: usize,
) -> Joined
    requires { (25920 ≤ length work.old) × (to < 64) × (1 ≤ limit) × (limit ≤ 64) × Every (λ p. p < to) (predecessors (edges_of edges.now) to) × (cache.ways ≤ 16) × (cache.sets ≤ 16) × Formed (length counts.now) counts.now rows.now × (joins ≤ length edges.now) }
    ensures { InPlace (enter_of (behind joins (entry_of counts.now rows.now)) limit (start_of cache) (worked_in to aside.0 (table_of work.old)) (predecessors (edges_of edges.now) to)) (to * 64) result.states result.aside.0 (table_of work.old) (table_of work.new) × (result.fits ≡ enter_fits (behind joins (entry_of counts.now rows.now)) limit (worked_in to aside.0 (table_of work.old)) (predecessors (edges_of edges.now) to)) }
{
    let e = next_edge(edges, to, 0);
    if edges.len() <= e {
        let filled = start_of(cache);
        store(
            work,
            to * 64,
            State {
                mask: 0,
                misses: 0,
                filled,
                units: Units::WHOLE,
            },
        );
        return Joined {
            states: 1,
            aside,
            fits: true,
        };
    }
    let from = edges[e] as usize * 64;
    let states = count(work, from);
    copy(work, from, to * 64, states);
    let first = Joined {
        states,
        aside,
        fits: true,
    };
    let others = after_edge(e, edges.len());
    join_others(work, to, first, edges, others, limit, counts, rows, joins)
}

// Node `j`, whose run is `accesses`, after the nodes before it, where `last` was accessed directly before.
pub(crate) fn work_node(
    work: &mut [u64],
    j: usize,
    past: Done,
    last: Option<u32>,
    accesses: &[u32],
    edges: &[u32],
    tracked: &[u32],
    cache: Cache,
    limit: usize,
    counts: &[u64],
    rows: &[u64],
    joins: usize,
) -> Done
    requires { (length accesses.now ≤ 4096) × Startable cache tracked.now limit (4096 - length accesses.now) j past.aside.0 edges.now work.old × Formed (length counts.now) counts.now rows.now × (joins ≤ length edges.now) }
    ensures { NodeDone (run_over cache.ways cache.sets limit tracked.now last accesses.now (enter_of (behind joins (entry_of counts.now rows.now)) limit (start_of cache) (worked_in j past.aside.0 (table_of work.old)) (predecessors (edges_of edges.now) j))) j result.aside.0 (table_of work.old) (table_of work.new) × (result.fits ≡ (past.fits && enter_fits (behind joins (entry_of counts.now rows.now)) limit (worked_in j past.aside.0 (table_of work.old)) (predecessors (edges_of edges.now) j))) }
{
    let before = past.aside;
    let entered = enter(work, j, edges, before, cache, limit, counts, rows, joins);
    let fits = both(past.fits, entered.fits);
    let aside = entered.aside;
    let begun = Tally {
        states: entered.states,
        aside,
    };
    let done = run(work, j * 64, begun, last, accesses, tracked, cache, limit);
    seal(work, j * 64, done.states);
    let all = done.aside;
    Done { aside: all, fits }
}

// All nodes, each join by its entry: the units set aside over all of them, and whether every pairing is accepted. Where one is not, the work goes on
// from the front: nothing of it is seen.
pub(crate) fn work_nodes(
    work: &mut [u64],
    runs: &[u32],
    accesses: &[u32],
    edges: &[u32],
    tracked: &[u32],
    cache: Cache,
    limit: usize,
    counts: &[u64],
    rows: &[u64],
) -> Done
    requires { (25920 ≤ length work.old) × Checked (input_of cache limit tracked.now runs.now accesses.now edges.now) × Formed (length counts.now) counts.now rows.now }
    ensures { (worked_in (length runs.now) result.aside.0 (table_of work.new) ≡ worked_by (entry_of counts.now rows.now) (input_of cache limit tracked.now runs.now accesses.now edges.now) (length runs.now)) × (result.fits ≡ all_fit (entry_of counts.now rows.now) (input_of cache limit tracked.now runs.now accesses.now edges.now) (length runs.now)) }
{
    let aside = aside_at_start();
    let mut done = Done { aside, fits: true };
    let mut lasts: [Option<u32>; 64] = [None; 64];
    let mut joins: usize = 0;
    let mut from: usize = 0;
    for (j, length) in runs.iter().enumerate() {
        let to = from + *length as usize;
        let last = last_before(lasts, j, edges);
        let its_run = &accesses[from..to];
        done = work_node(
            work, j, done, last, its_run, edges, tracked, cache, limit, counts, rows, joins,
        );
        lasts[j] = last_after(last, its_run);
        joins = joins_to(edges, j + 1);
        from = to;
    }
    done
}
