// Straight runs: one node, no edges.
use crate::sweep::sweep;
use examined::report::Report;
use sequences::input::put_straight;
use sequences::numbers::{read, wide};

// A row for each kind of run: the numbers of its cache and blocks, as input.rt of `sequences` has them, and three more: how many accesses at least, and fewer than how many; how far
// apart the access lists are that are taken.
const RUNS: [[u32; 13]; 35] = [
    // Three blocks, all tracked, listed in another order than by number.
    [1, 1, 1, 0, 3, 2, 3, 1, 0, 3, 0, 6, 1],
    [1, 2, 1, 0, 3, 2, 3, 1, 0, 3, 0, 6, 1],
    [1, 3, 1, 0, 3, 2, 3, 1, 0, 3, 0, 6, 1],
    [1, 4, 1, 0, 3, 2, 3, 1, 0, 3, 0, 5, 1],
    // Four blocks, of which two are tracked.
    [1, 1, 1, 0, 2, 3, 1, 0, 0, 4, 0, 5, 1],
    [1, 2, 1, 0, 2, 3, 1, 0, 0, 4, 0, 5, 1],
    [1, 3, 1, 0, 2, 3, 1, 0, 0, 4, 0, 5, 1],
    // Some longer runs.
    [1, 2, 1, 0, 3, 1, 2, 3, 0, 3, 8, 9, 97],
    [1, 3, 1, 0, 3, 1, 2, 3, 0, 3, 8, 9, 97],
    [1, 4, 1, 0, 4, 1, 2, 3, 4, 4, 7, 8, 499],
    [1, 2, 1, 0, 3, 3, 2, 1, 0, 3, 12, 13, 29989],
    [1, 3, 1, 0, 2, 2, 4, 0, 0, 4, 8, 9, 997],
    // Two sets: 1 and 3 belong to one, 2 and 4 to the other.
    [2, 1, 1, 0, 3, 2, 3, 1, 0, 3, 0, 6, 1],
    [2, 2, 1, 0, 3, 2, 3, 1, 0, 3, 0, 6, 1],
    [2, 3, 1, 0, 3, 2, 3, 1, 0, 3, 0, 5, 1],
    [2, 2, 1, 0, 2, 3, 4, 0, 0, 4, 0, 5, 1],
    [2, 2, 1, 0, 4, 1, 2, 3, 4, 4, 8, 9, 499],
    // Four sets: 1 and 5 belong to one, each other block has one to itself.
    [4, 1, 1, 0, 3, 5, 2, 1, 0, 5, 0, 4, 1],
    [4, 2, 1, 0, 4, 1, 5, 4, 2, 5, 6, 7, 47],
    [4, 3, 1, 0, 3, 5, 3, 1, 0, 5, 6, 7, 97],
    // The second revision: one set, two and four.
    [1, 1, 2, 0, 3, 2, 3, 1, 0, 3, 0, 6, 1],
    [1, 2, 2, 0, 3, 2, 3, 1, 0, 3, 0, 6, 1],
    [1, 3, 2, 0, 3, 2, 3, 1, 0, 3, 0, 6, 1],
    [1, 4, 2, 0, 3, 2, 3, 1, 0, 3, 0, 5, 1],
    [1, 2, 2, 0, 2, 3, 1, 0, 0, 4, 0, 5, 1],
    [1, 3, 2, 0, 4, 1, 2, 3, 4, 4, 8, 9, 997],
    [2, 2, 2, 0, 3, 2, 3, 1, 0, 3, 0, 6, 1],
    [2, 2, 2, 0, 4, 1, 2, 3, 4, 4, 8, 9, 499],
    [4, 2, 2, 0, 4, 1, 5, 4, 2, 5, 6, 7, 47],
    // Used caches, of both revisions.
    [1, 2, 1, 1, 3, 2, 3, 1, 0, 3, 0, 5, 1],
    [1, 2, 2, 1, 3, 2, 3, 1, 0, 3, 0, 6, 1],
    [1, 3, 2, 1, 2, 3, 1, 0, 0, 4, 0, 5, 1],
    [2, 2, 1, 1, 2, 2, 3, 0, 0, 3, 0, 5, 1],
    [2, 2, 2, 1, 3, 2, 3, 1, 0, 3, 0, 6, 1],
    [4, 2, 2, 1, 3, 1, 5, 2, 0, 5, 6, 7, 97],
];

// The runs of one length.
fn of_length(row: &[u32], length: u32, report: Report) -> Report {
    let mut run: [u32; 52] = [0; 52];
    put_straight(&mut run, row, length);
    sweep(&mut run, wide(read(row, 12)), report)
}

// The runs of a row.
fn of_row(row: &[u32], report: Report) -> Report {
    let mut done = report;
    for length in read(row, 10)..read(row, 11) {
        done = of_length(row, length, done);
    }
    done
}

pub(crate) fn all_straight(report: Report) -> Report {
    let mut done = report;
    for row in &RUNS {
        done = of_row(row, done);
    }
    done
}
