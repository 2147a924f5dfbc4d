// What is asked of the lists that are handed in before any work: numbers in their ranges, blocks listed once, accesses tracked, and a graph that keeps every rule of document 01, section 2.
#![tactic(auto)]

ghost use Rattle.std.specs.Prelude.{◌≡◌, map, ◌≤◌, length};
ghost use Rattle.basics.specs.Sums.{sum_over};
ghost use Rattle.rules.specs.Contents.{among, all_tracked, once};
ghost use Rattle.rules.specs.Ordered.{rises};
ghost use Rattle.rules.specs.Input.{edges_of};
ghost use Rattle.rules.specs.Refusals.{outside, forward, edge_order, has_edge_in, has_edge_out, edges_kept, graph_broken, set_counts};
ghost use Rattle.graph_check.specs.Edges.{side_of};

use orders::precedes;

// Whether `n` is not one of `low` .. `high`.
pub fn outside(low: u64, high: u64, n: u64) -> bool
    ensures { result ≡ outside low high n }
{
    if n < low {
        return true;
    }
    high < n
}

// Whether `list` has `b`.
fn among(list: &[u32], b: u32) -> bool
    ensures { result ≡ among list.now b }
{
    // as far as the first that is: `contains` looks at several at a time, and a list may be long
    list.iter().any(|n| *n == b)
}

// Whether `sets` is one of the set counts that there are.
pub fn is_set_count(sets: u32) -> bool
    ensures { result ≡ among set_counts sets }
{
    among(&[1, 2, 4, 8, 16], sets)
}

// Whether no number of `list` is listed twice.
pub fn once(list: &[u32]) -> bool
    ensures { result ≡ once list.now }
{
    for (i, b) in list.iter().enumerate() {
        if among(&list[i + 1..], *b) {
            return false;
        }
    }
    true
}

// The sum of the run lengths of at most 64 nodes, which cannot overflow.
#[tactic(auto, using(crate::proofs::Checks::sums))]
fn sum(list: &[u32]) -> u64
    requires { length list.now ≤ 64 }
    ensures { result ≡ sum_over (λ n. n) list.now }
{
    list.iter().map(|n| u64::from(*n)).sum()
}

// Whether each edge leads from a lower node to a higher one, below the node count `n`.
fn forward(edges: &[u32], n: usize) -> bool
    ensures { result ≡ forward n (edges_of edges.now) }
{
    edges
        .chunks_exact(2)
        .all(|edge| edge[0] < edge[1] && (edge[1] as usize) < n)
}

// Whether each edge stands before the next: by where they lead, then by where they come from.
fn rising(edges: &[u32]) -> bool
    ensures { result ≡ rises edge_order (edges_of edges.now) }
{
    for e in 1..edges.len() / 2 {
        let at = e * 2;
        if !precedes(
            edges[at - 1] as u64,
            edges[at - 2] as u64,
            edges[at + 1] as u64,
            edges[at] as u64,
        ) {
            return false;
        }
    }
    true
}

// Whether some edge has node `j` on its side `side`.
fn ends(edges: &[u32], side: usize, j: usize) -> bool
    requires { side ≤ 1 }
    ensures { result ≡ among (map (side_of side) (edges_of edges.now)) j }
{
    // by number: a step of a chain over chunks of two is longer, and every node is looked for
    for e in 0..edges.len() / 2 {
        if edges[e * 2 + side] as usize == j {
            return true;
        }
    }
    false
}

// Whether each of the `n` nodes but node 0 has an edge in, from the top.
fn has_edge_in(edges: &[u32], n: usize) -> bool
    ensures { result ≡ has_edge_in n (edges_of edges.now) }
{
    for j in (1..n).rev() {
        if !ends(edges, 1, j) {
            return false;
        }
    }
    true
}

// Whether each of the `n` nodes but the last has an edge out, from the top.
fn has_edge_out(edges: &[u32], n: usize) -> bool
    ensures { result ≡ has_edge_out n (edges_of edges.now) }
{
    for j in (1..n).rev() {
        if !ends(edges, 0, j - 1) {
            return false;
        }
    }
    true
}

// Whether the flat list of edges of a graph of `n` nodes keeps every edge rule.
#[tactic(auto, using(crate::proofs::Checks::paired, crate::proofs::Checks::unpaired), unfolding(rules::specs::Refusals::edges_kept))]
fn edges_kept(edges: &[u32], n: usize) -> bool
    ensures { result ≡ edges_kept n edges.now }
{
    if edges.len() % 2 != 0 {
        return false;
    }
    if !forward(edges, n) {
        return false;
    }
    if !rising(edges) {
        return false;
    }
    if !has_edge_in(edges, n) {
        return false;
    }
    has_edge_out(edges, n)
}

// Whether the graph is refused: by its node count, its run lengths or its edges.
pub fn graph_broken(runs: &[u32], accesses: usize, edges: &[u32]) -> bool
    ensures { result ≡ graph_broken runs.now accesses edges.now }
{
    if outside(1, 64, runs.len() as u64) {
        return true;
    }
    if sum(runs) != accesses as u64 {
        return true;
    }
    !edges_kept(edges, runs.len())
}

// Whether every access is to a tracked block.
pub fn all_tracked(tracked: &[u32], accesses: &[u32]) -> bool
    ensures { result ≡ all_tracked tracked.now accesses.now }
{
    accesses.iter().all(|b| among(tracked, *b))
}
