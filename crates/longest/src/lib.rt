// The longest path to the last node: document 02, request 9/13.
#![tactic(auto)]

ghost use Rattle.std.specs.Prelude.{◌≡◌, ℕ, ◌≤◌, ◌<◌, length, get_or, take};
ghost use Rattle.rules.specs.Input.{input_of, edges_of, predecessors};
ghost use Rattle.rules.specs.Longest.{most_of, longest_to, up_to, longest_answer};
ghost use Rattle.longest.specs.Graph.{graph_of};

use basics::larger;
use refusals::judge;
use rules::{Cache, Refusal};

// What `node` has in `ends`, or 0 past the end.
fn end_of(ends: &[u64], node: usize) -> u64
    ensures { result ≡ get_or ends.now node 0 }
{
    if node < ends.len() {
        return ends[node];
    }
    0
}

// The most that a node with an edge to `node` has in `ends`, or 0 if there is none.
fn most_before(ends: &[u64], edges: &[u32], node: usize) -> u64
    ensures { result ≡ most_of ends.now (predecessors (edges_of edges.now) node) }
{
    let mut most: u64 = 0;
    for edge in edges.chunks_exact(2) {
        if edge[1] as usize == node {
            most = larger(most, end_of(ends, edge[0] as usize));
        }
    }
    most
}

// For each node, in order, the accesses of the longest path that ends with it; none has more than 4,096.
fn find_ends(ends: &mut [u64], runs: &[u32], edges: &[u32])
    requires { (length runs.now ≤ length ends.old) × ((j : ℕ) → j < length runs.now → up_to (graph_of runs.now edges.now) j ≤ 4096) }
    ensures { take (length runs.now) ends.new ≡ longest_to (graph_of runs.now edges.now) (length runs.now) }
{
    for (j, run) in runs.iter().enumerate() {
        let most = most_before(&ends[..j], edges, j);
        ends[j] = most + *run as u64;
    }
}

// The accesses of the longest path to the last node; refused as the graph call is.
pub fn longest_path(
    cache: Cache,
    limit: u32,
    tracked: &[u32],
    runs: &[u32],
    accesses: &[u32],
    edges: &[u32],
) -> Result<u64, Refusal>
    ensures { result ≡ longest_answer (input_of cache limit tracked.now runs.now accesses.now edges.now) }
{
    judge(
        cache,
        limit,
        tracked,
        runs,
        accesses,
        edges,
        limit as usize,
        5184,
    )?;
    let mut ends: [u64; 64] = [0; 64];
    find_ends(&mut ends, runs, edges);
    Ok(ends[runs.len() - 1])
}
