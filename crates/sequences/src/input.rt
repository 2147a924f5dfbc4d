// What a call is handed, as one row of 52 numbers:
//
//     places 0 to 3     the cache: its sets, its ways, its revision, and 1 where it is used
//     places 4 to 8     how many blocks are tracked, and they
//     place 9           how many blocks there are to access
//     places 10 to 17   how many nodes there are, and the run length of each
//     places 18 to 34   how many numbers tell the edges, and they: from, to, from, to
//     places 35 to 51   how many accesses there are, and they
//
// A list may have fewer numbers than there are places for it. A path of a graph is a row too: the straight run of its accesses, on the same cache.
use crate::numbers::{read, wide};
use rules::{Cache, Start};

// The place of the first access.
pub(crate) const FIRST_ACCESS: u64 = 36;

pub fn cache_of(row: &[u32]) -> Cache {
    let start = Start::from(read(row, 3) == 1);
    Cache {
        sets: read(row, 0),
        ways: read(row, 1),
        revision: read(row, 2),
        start,
    }
}

// How many blocks there are to access.
pub(crate) fn blocks_of(row: &[u32]) -> u64 {
    wide(read(row, 9))
}

// The `count` numbers of a row from place `from` on; none where it has fewer.
fn part<'a>(row: &'a [u32], from: usize, count: u32) -> &'a [u32] {
    let n = count as usize;
    if row.len() < from {
        return &row[0..0];
    }
    if row.len() - from < n {
        return &row[0..0];
    }
    let end = from + n;
    &row[from..end]
}

pub fn tracked_of<'a>(row: &'a [u32]) -> &'a [u32] {
    part(row, 5, read(row, 4))
}

// The run lengths.
pub fn runs_of<'a>(row: &'a [u32]) -> &'a [u32] {
    part(row, 11, read(row, 10))
}

// How many nodes there are.
pub fn nodes_of(row: &[u32]) -> usize {
    read(row, 10) as usize
}

pub fn edges_of<'a>(row: &'a [u32]) -> &'a [u32] {
    part(row, 19, read(row, 18))
}

pub fn accesses_of<'a>(row: &'a [u32]) -> &'a [u32] {
    part(row, 36, read(row, 35))
}

// Whether `block` is one of at most four tracked ones; 0 is no block.
fn is_tracked(tracked: &[u32], block: u32) -> bool {
    if read(tracked, 0) == block {
        return true;
    }
    if read(tracked, 1) == block {
        return true;
    }
    if read(tracked, 2) == block {
        return true;
    }
    read(tracked, 3) == block
}

// Whether every access of a row is tracked.
pub fn all_tracked(row: &[u32]) -> bool {
    let tracked = tracked_of(row);
    accesses_of(row)
        .iter()
        .all(|block| is_tracked(tracked, *block))
}

pub(crate) fn put(row: &mut [u32], at: usize, number: u32) {
    if at < row.len() {
        row[at] = number;
    }
}

// The numbers of a list go to the places from `to` on, up to below `end`.
fn put_list(row: &mut [u32], to: usize, end: usize, list: &[u32]) {
    for at in to..end {
        put(row, at, read(list, at - to));
    }
}

// The cache and the blocks of another row.
fn put_cache(row: &mut [u32], other: &[u32]) {
    put_list(row, 0, 10, other);
}

// The run lengths and the edges of a graph of `length` accesses, each list behind its length.
pub fn put_graph(row: &mut [u32], cache: &[u32], runs: &[u32], edges: &[u32], length: u32) {
    put_cache(row, cache);
    put_list(row, 10, 18, runs);
    put_list(row, 18, 35, edges);
    put(row, 35, length);
}

// A straight run of `length` accesses: one node, no edges.
pub fn put_straight(row: &mut [u32], cache: &[u32], length: u32) {
    put_cache(row, cache);
    put(row, 10, 1);
    put(row, 11, length);
    put(row, 18, 0);
    put(row, 35, length);
}
