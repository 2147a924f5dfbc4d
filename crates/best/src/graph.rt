// Nodes one after the other, each from the joined tables of its predecessors.
ghost use Rattle.std.specs.Prelude.{◌≡◌, ◌+◌, ◌-◌, ◌*◌, ◌≤◌, ◌<◌, length, None};
ghost use Rattle.rules.specs.Input.{input_of, edges_of, predecessors};
ghost use Rattle.rules.specs.Shape.{Every};
ghost use Rattle.rules.proofs.Refusals.{Checked};
ghost use Rattle.words.specs.BestTables.{table_of};
ghost use Rattle.best.specs.Tables.{begins, run as run_over, enter as enter_of, join_all, worked};
ghost use Rattle.best.specs.Rooms.{InPlace, NodeDone, worked_in};
ghost use Rattle.tables.specs.Edges.{came_from};
ghost use Rattle.best.specs.Working.{work_at, Startable};

use crate::memory::{copy, store};
use crate::run::{join_to, run};
use crate::slots::{count, seal};
use nodes::after_edge;
use rules::{BestState, Cache, Hits, Misses, Units};
use tables::next_edge;

// The tables of the predecessors, by the edges from place `after` on, joined one at a time to that of node `to`, of `n` states.
pub(crate) fn join_others(
    work: &mut [u64],
    to: usize,
    n: usize,
    edges: &[u32],
    after: usize,
    limit: usize,
) -> usize
    requires { (25920 ≤ length work.old) × (to < 64) × (n ≤ 64) × (after ≤ length edges.now) × (1 ≤ limit) × (limit ≤ 64) × Every (λ p. p < to) (came_from edges.now to after) }
    ensures { InPlace (join_all limit (worked_in to (table_of work.old)) (came_from edges.now to after) (work_at (to * 64) n work.old)) (to * 64) result (table_of work.old) (table_of work.new) }
{
    let mut so_far = n;
    let mut e = next_edge(edges, to, after);
    // From one edge into the node to the next, and not from edge to edge: no index is counted.
    while e < edges.len() {
        let from = edges[e] as usize * 64;
        let m = count(work, from);
        so_far = join_to(work, to * 64, so_far, from, m, limit);
        e = next_edge(edges, to, e + 2);
    }
    so_far
}

// What node `to` starts from, in its slot; how many states that has.
pub(crate) fn enter(work: &mut [u64], to: usize, edges: &[u32], limit: usize) -> usize
    requires { (25920 ≤ length work.old) × (to < 64) × (1 ≤ limit) × (limit ≤ 64) × Every (λ p. p < to) (predecessors (edges_of edges.now) to) }
    ensures { InPlace (enter_of limit begins (worked_in to (table_of work.old)) (predecessors (edges_of edges.now) to)) (to * 64) result (table_of work.old) (table_of work.new) }
{
    let e = next_edge(edges, to, 0);
    if edges.len() <= e {
        store(
            work,
            to * 64,
            BestState {
                exact: true,
                mask: 0,
                misses: Misses(0),
                hits: Hits(0),
                units: Units::WHOLE,
            },
        );
        return 1;
    }
    let from = edges[e] as usize * 64;
    let n = count(work, from);
    copy(work, from, to * 64, n);
    let others = after_edge(e, edges.len());
    join_others(work, to, n, edges, others, limit)
}

// Node `j`, whose run is `accesses`, after the nodes before it.
pub(crate) fn work_node(
    work: &mut [u64],
    j: usize,
    accesses: &[u32],
    edges: &[u32],
    tracked: &[u32],
    sets: u32,
    ways: u32,
    limit: usize,
)
    requires { (length accesses.now ≤ 4096) × Startable sets ways tracked.now limit (4096 - length accesses.now) j edges.now work.old }
    ensures { NodeDone (run_over ways sets limit tracked.now None accesses.now (enter_of limit begins (worked_in j (table_of work.old)) (predecessors (edges_of edges.now) j))) j (table_of work.old) (table_of work.new) }
{
    let entered = enter(work, j, edges, limit);
    let done = run(work, j * 64, entered, accesses, tracked, sets, ways, limit);
    seal(work, j * 64, done);
}

// All nodes.
pub(crate) fn work_nodes(
    work: &mut [u64],
    runs: &[u32],
    accesses: &[u32],
    edges: &[u32],
    tracked: &[u32],
    cache: Cache,
    limit: usize,
)
    requires { (25920 ≤ length work.old) × Checked (input_of cache limit tracked.now runs.now accesses.now edges.now) }
    ensures { worked_in (length runs.now) (table_of work.new) ≡ worked (input_of cache limit tracked.now runs.now accesses.now edges.now) (length runs.now) }
{
    let mut from: usize = 0;
    for (j, accessed) in runs.iter().enumerate() {
        let to = from + *accessed as usize;
        work_node(
            work,
            j,
            &accesses[from..to],
            edges,
            tracked,
            cache.sets,
            cache.ways,
            limit,
        );
        from = to;
    }
}
