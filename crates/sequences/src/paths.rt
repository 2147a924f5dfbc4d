// The paths of a small graph, at most seven nodes. Edges lead from lower nodes to higher ones, so a path is a set of nodes,
// taken in rising order: bit j of `chosen` says that node j is on it.
use crate::input::{FIRST_ACCESS, accesses_of, put, put_straight, runs_of};
use crate::numbers::{narrow, plus, read, wide};

// A node that no graph here has.
const NOWHERE: u32 = 99;

// How many sets of `nodes` nodes there are; none where the graph is too large.
pub fn sets_of(nodes: usize) -> u64 {
    if 7 < nodes {
        return 0;
    }
    1 << nodes
}

fn is_chosen(chosen: u64, node: u32) -> bool {
    if 6 < node {
        return false;
    }
    (chosen >> node) % 2 == 1
}

// Whether the edges, each as two numbers, have the one from `from` to `to`.
fn has_edge(edges: &[u32], from: u32, to: u32) -> bool {
    edges
        .chunks_exact(2)
        .any(|edge| edge == [from, to].as_slice())
}

// The node that is reached once `node` is looked at, where `at` was reached before it.
fn reached(chosen: u64, edges: &[u32], at: u32, node: u32) -> u32 {
    if is_chosen(chosen, node) {
        if has_edge(edges, at, node) {
            return node;
        }
        return NOWHERE;
    }
    at
}

// Whether the chosen nodes are a path from node 0 to node `last`.
pub fn is_path(chosen: u64, edges: &[u32], last: u32) -> bool {
    if !is_chosen(chosen, 0) {
        return false;
    }
    let mut at: u32 = 0;
    for node in 1..=last {
        at = reached(chosen, edges, at, node);
    }
    at == last
}

// Copies the `count` accesses from place `from` on to the end of a path that has `size` accesses.
fn copy(path: &mut [u32], size: u64, accesses: &[u32], from: u64, count: u64) {
    let to = plus(FIRST_ACCESS, size);
    for i in 0..count {
        put(
            path,
            plus(to, i) as usize,
            read(accesses, plus(from, i) as usize),
        );
    }
}

// A node's accesses are added to the path where the node is chosen: how many accesses the path then has.
fn extend(
    path: &mut [u32],
    length: u64,
    chosen: u64,
    node: usize,
    accesses: &[u32],
    from: u64,
    count: u64,
) -> u64 {
    if 6 < node {
        return length;
    }
    if is_chosen(chosen, node as u32) {
        copy(path, length, accesses, from, count);
        return plus(length, count);
    }
    length
}

// Writes the accesses of the chosen nodes' runs to `path`, and answers how many there are.
fn copy_chosen(path: &mut [u32], chosen: u64, runs: &[u32], accesses: &[u32]) -> u64 {
    let mut size: u64 = 0;
    let mut from: u64 = 0;
    for (node, run) in runs.iter().enumerate() {
        let count = wide(*run);
        size = extend(path, size, chosen, node, accesses, from, count);
        from = plus(from, count);
    }
    size
}

// Writes the path of the chosen nodes as a row of its own, a straight run, and answers how many accesses it has.
pub fn collect(path: &mut [u32], row: &[u32], chosen: u64) -> u64 {
    let size = copy_chosen(path, chosen, runs_of(row), accesses_of(row));
    put_straight(path, row, narrow(size));
    size
}
