// Which tracked blocks are accessed on some path ahead, as masks: what the second analysis has to keep.
#![tactic(auto)]

ghost use Rattle.std.specs.Prelude.{◌≡◌, cond, ◌++◌, ◌+◌, ◌≤◌, eqb, leb, length, get_or, drop};
ghost use Rattle.std.specs.Int.Bits.{bit_or};
ghost use Rattle.basics.specs.Sums.{sum_over};
ghost use Rattle.rules.specs.Contents.{find, with};
ghost use Rattle.rules.specs.Input.{edges_of};
ghost use Rattle.tight_rules.specs.Run.{living};
ghost use Rattle.tight_rules.specs.Live.{live_at, after_node, lives_of};
ghost use Rattle.live.specs.Starts.{graph_of, starts_of};

use refusals::judge;
use rules::{Cache, Start};
use tables::{aim, with_block};

// `live` with the place of `block`, if it is tracked.
fn with_access(tracked: &[u32], live: u64, block: u32) -> u64
    requires { length tracked.now ≤ 16 }
    ensures { result ≡ with live (find tracked.now block) }
{
    let target = aim(tracked, 1, None, block);
    let place = target.place;
    with_block(live, place)
}

// The places that are accessed in `run`, and those of `live`: from its last access to its first.
#[tactic(auto, using(crate::proofs::Lives::living_end))]
fn living(tracked: &[u32], live: u64, run: &[u32]) -> u64
    requires { length tracked.now ≤ 16 }
    ensures { result ≡ living tracked.now live run.now }
{
    let mut so_far = live;
    for i in (0..run.len()).rev() {
        so_far = with_access(tracked, so_far, run[i]);
    }
    so_far
}

// What is live before `run`, where `live` is behind it; with more than 16 tracked blocks `live` itself.
pub fn live_before(tracked: &[u32], live: u64, run: &[u32]) -> u64
    ensures { result ≡ cond (leb (length tracked.now) 16) (living tracked.now live run.now) live }
{
    if tracked.len() <= 16 {
        return living(tracked, live, run);
    }
    live
}

// What `starts` has at a place, or 0 past the end.
fn start_at(starts: &[u64], place: usize) -> u64
    ensures { result ≡ get_or starts.now place 0 }
{
    if place < starts.len() {
        return starts[place];
    }
    0
}

// What is live at the start of node `to`, if the edge comes from node `v`, and otherwise nothing; `starts` has the nodes behind node `v`.
#[tactic(auto, using(crate::proofs::Lives::back, crate::proofs::Lives::onward))]
fn along(starts: &[u64], v: usize, from: u32, to: u32) -> u64
    ensures { result ≡ cond (eqb from v) (live_at starts.now v to) 0 }
{
    if from as usize != v {
        return 0;
    }
    if to as usize <= v {
        return start_at(starts, 0);
    }
    start_at(starts, to as usize - v - 1)
}

// What is live behind node `v`: what is at the start of a node that an edge leads to from there.
fn after_node(starts: &[u64], edges: &[u32], v: usize) -> u64
    ensures { result ≡ after_node starts.now v (edges_of edges.now) }
{
    let mut live: u64 = 0;
    for e in (0..edges.len() / 2).rev() {
        live |= along(starts, v, edges[2 * e], edges[2 * e + 1]);
    }
    live
}

// What is live behind the run of node `v`, where `starts` has for each node what is live at its start.
#[tactic(auto, using(crate::proofs::Lives::after_part, crate::proofs::Lives::after_none))]
pub fn live_after(starts: &[u64], edges: &[u32], v: usize) -> u64
    ensures { result ≡ after_node (drop (v + 1) starts.now) v (edges_of edges.now) }
{
    if starts.len() <= v {
        let end = starts.len();
        return after_node(&starts[end..], edges, v);
    }
    after_node(&starts[v + 1..], edges, v)
}

// For each node what is live at its start, from the last node to the first.
#[tactic(auto, using(crate::proofs::Lives::held_all))]
fn fill_starts(starts: &mut [u64], tracked: &[u32], runs: &[u32], accesses: &[u32], edges: &[u32])
    requires { (length tracked.now ≤ 16) × (length runs.now ≤ length starts.old) × (sum_over (λ n. n) runs.now ≡ length accesses.now) }
    ensures { starts.new ≡ lives_of (graph_of tracked.now runs.now accesses.now edges.now) (length runs.now) ++ drop (length runs.now) starts.old }
{
    let mut to = accesses.len();
    for v in (0..runs.len()).rev() {
        let from = to - runs[v] as usize;
        let behind = after_node(&starts[v + 1..runs.len()], edges, v);
        starts[v] = living(tracked, behind, &accesses[from..to]);
        to = from;
    }
}

// For each node what is live at its start, and 0 beyond the last node and where document 01's call refuses the graph.
pub fn live_starts(tracked: &[u32], runs: &[u32], accesses: &[u32], edges: &[u32]) -> [u64; 64]
    ensures { result ≡ starts_of (graph_of tracked.now runs.now accesses.now edges.now) }
{
    let cache = Cache {
        sets: 1,
        ways: 1,
        revision: 1,
        start: Start::Cold,
    };
    let mut starts: [u64; 64] = [0; 64];
    match judge(cache, 1, tracked, runs, accesses, edges, 1, 5184) {
        Err(_) => starts,
        Ok(()) => {
            fill_starts(&mut starts, tracked, runs, accesses, edges);
            starts
        }
    }
}
