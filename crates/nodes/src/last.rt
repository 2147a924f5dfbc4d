// The block accessed directly before: what is known of it before a node and after a run. An array beside the working room has it for each node.
ghost use Rattle.std.specs.Prelude.{◌≡◌, ◌≤◌, length, Some};
ghost use Rattle.rules.specs.Contents.{agreed, last_after};
ghost use Rattle.rules.specs.Graph.{last_at, agree_all, last_before};
ghost use Rattle.rules.specs.Input.{edges_of, predecessors};
ghost use Rattle.tables.specs.Edges.{came_from};

use tables::{is_last, next_edge};

// What `one` says, if `other` says the same.
pub(crate) fn agree(one: Option<u32>, other: Option<u32>) -> Option<u32>
    ensures { result ≡ agreed one other }
{
    match one {
        None => one,
        Some(block) => {
            if is_last(other, block) {
                return one;
            }
            None
        }
    }
}

// The last block of a node.
pub(crate) fn last_at(lasts: [Option<u32>; 64], node: usize) -> Option<u32>
    ensures { result ≡ last_at lasts node }
{
    if node < 64 {
        return lasts[node];
    }
    None
}

// `last`, if the predecessors of node `to`, by the edges from place `after` on, all agree with it.
pub(crate) fn agree_others(
    lasts: [Option<u32>; 64],
    to: usize,
    edges: &[u32],
    after: usize,
    last: Option<u32>,
) -> Option<u32>
    requires { after ≤ length edges.now }
    ensures { result ≡ agree_all lasts (came_from edges.now to after) last }
{
    let mut so_far = last;
    let mut e = next_edge(edges, to, after);
    // From one edge into the node to the next, and not from edge to edge: no index is counted.
    while e < edges.len() {
        so_far = agree(so_far, last_at(lasts, edges[e] as usize));
        e = next_edge(edges, to, e + 2);
    }
    so_far
}

// What is known before node `to`: nothing where it has no predecessor.
pub fn last_before(lasts: [Option<u32>; 64], to: usize, edges: &[u32]) -> Option<u32>
    ensures { result ≡ last_before lasts (predecessors (edges_of edges.now) to) }
{
    let e = next_edge(edges, to, 0);
    if edges.len() <= e {
        return None;
    }
    let first = last_at(lasts, edges[e] as usize);
    agree_others(lasts, to, edges, e + 2, first)
}

// What is known after the accesses of a run: the last of them, and where there is none what was known before.
pub fn last_after(last: Option<u32>, accesses: &[u32]) -> Option<u32>
    ensures { result ≡ last_after last accesses.now }
{
    if accesses.len() == 0 {
        return last;
    }
    Some(accesses[accesses.len() - 1])
}

// What is known after an access to the block with this number, a hit too: it is the last one.
pub fn accessed(number: u32) -> Option<u32>
    ensures { result ≡ Some number }
{
    Some(number)
}
