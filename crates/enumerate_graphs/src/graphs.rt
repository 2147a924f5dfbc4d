// Small branching graphs.
use crate::sweep::sweep;
use examined::report::Report;
use sequences::input::put_graph;
use sequences::numbers::{read, times, wide};

// The edges of a graph: how many numbers there are, and they, from, to, from, to.
const EDGES: [[u32; 17]; 5] = [
    // Nodes 1 and 2 between 0 and 3: the two sides of a branch.
    [8, 0, 1, 0, 2, 1, 3, 2, 3, 0, 0, 0, 0, 0, 0, 0, 0],
    // Three predecessors at the last node.
    [12, 0, 1, 0, 2, 0, 3, 1, 4, 2, 4, 3, 4, 0, 0, 0, 0],
    // An edge from node 0 to node 2 passes node 1 by.
    [6, 0, 1, 0, 2, 1, 2, 0, 0, 0, 0, 0, 0, 0, 0, 0, 0],
    // Two branches one after the other.
    [16, 0, 1, 0, 2, 1, 3, 2, 3, 3, 4, 3, 5, 4, 6, 5, 6],
    // No branch.
    [4, 0, 1, 1, 2, 0, 0, 0, 0, 0, 0, 0, 0, 0, 0, 0, 0],
];

// A row for each graph: how many nodes there are, and the run length of each; its edges, as a place above; the accesses of all nodes; how far apart the access lists
// are that are taken.
const GRAPHS: [[u32; 11]; 12] = [
    [4, 1, 1, 1, 1, 0, 0, 0, 0, 4, 1],
    [4, 1, 1, 0, 1, 0, 0, 0, 0, 3, 1],
    [4, 2, 1, 2, 1, 0, 0, 0, 0, 6, 7],
    [4, 0, 2, 2, 2, 0, 0, 0, 0, 6, 11],
    [4, 1, 0, 0, 2, 0, 0, 0, 0, 3, 1],
    [5, 1, 1, 1, 1, 1, 0, 0, 1, 5, 2],
    [5, 2, 1, 2, 0, 1, 0, 0, 1, 6, 13],
    [3, 1, 1, 1, 0, 0, 0, 0, 2, 3, 1],
    [3, 2, 2, 2, 0, 0, 0, 0, 2, 6, 7],
    [7, 1, 1, 1, 1, 1, 1, 1, 3, 7, 41],
    [7, 0, 0, 0, 0, 0, 0, 0, 3, 0, 1],
    [3, 1, 0, 2, 0, 0, 0, 0, 4, 3, 1],
];

// A row for each cache that every graph is examined on: the numbers of the cache and the blocks, as input.rt of `sequences` has them, and one more: how many times as far apart the
// access lists are.
const CACHES: [[u32; 11]; 12] = [
    // One set, with one, two and three ways, and with some blocks untracked.
    [1, 1, 1, 0, 3, 1, 2, 3, 0, 3, 1],
    [1, 2, 1, 0, 3, 3, 1, 2, 0, 3, 1],
    [1, 3, 1, 0, 3, 2, 3, 1, 0, 3, 1],
    [1, 2, 1, 0, 1, 2, 0, 0, 0, 3, 1],
    // Two and four sets: 1 and 3 belong to one of the two, 1 and 5 to one of the four.
    [2, 2, 1, 0, 3, 3, 1, 2, 0, 3, 1],
    [2, 2, 1, 0, 2, 1, 2, 0, 0, 3, 1],
    [4, 1, 1, 0, 2, 5, 1, 0, 0, 5, 11],
    // The second revision, on one set, two and four.
    [1, 2, 2, 0, 3, 3, 1, 2, 0, 3, 1],
    [2, 2, 2, 0, 2, 2, 3, 0, 0, 3, 1],
    [4, 2, 2, 0, 3, 5, 1, 2, 0, 5, 11],
    // Used caches, of both revisions.
    [2, 2, 1, 1, 3, 3, 1, 2, 0, 3, 1],
    [1, 2, 2, 1, 2, 2, 3, 0, 0, 3, 1],
];

// A graph with these edges, on the cache of a row.
fn on_cache(cache: &[u32], graph: &[u32], edges: &[u32], report: Report) -> Report {
    let mut row: [u32; 52] = [0; 52];
    put_graph(&mut row, cache, graph, edges, read(graph, 9));
    let stride = times(wide(read(graph, 10)), wide(read(cache, 10)));
    sweep(&mut row, stride, report)
}

// The same on each of the caches.
fn on_caches(graph: &[u32], edges: &[u32], report: Report) -> Report {
    let mut done = report;
    for cache in &CACHES {
        done = on_cache(cache, graph, edges, done);
    }
    done
}

// A graph with the edges that it names.
fn with_edges(graph: &[u32], report: Report) -> Report {
    match EDGES.get(read(graph, 8) as usize) {
        Some(edges) => on_caches(graph, edges, report),
        None => report.compared(false),
    }
}

pub(crate) fn all_graphs(report: Report) -> Report {
    let mut done = report;
    for graph in &GRAPHS {
        done = with_edges(graph, done);
    }
    done
}
