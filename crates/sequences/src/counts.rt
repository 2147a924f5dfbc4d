// All choice sequences of a path, counted by what they end with. Cell 16 × mask + misses of a count belongs to the
// sequences that end with these contents and misses: masks and misses are below 16 here.
use crate::cache::{Found, access, cache_found, contents};
use crate::input::{accesses_of, cache_of, tracked_of};
use crate::numbers::{digit, other_digits, plus, wide};

// The cell of a mask and a miss count; 256, which is none, where one is not below 16.
fn cell_of(mask: u64, misses: u64) -> usize {
    if 15 < mask {
        return 256;
    }
    if 15 < misses {
        return 256;
    }
    (mask * 16 + misses) as usize
}

// The cell of one choice sequence of a path, the cache being found so: way `draws` % `ways` is drawn at the first access, and so on digit by digit. There is a
// draw at every access, hits included.
fn walk(before: [u32; 16], path: &[u32], draws: u64) -> usize {
    let told = cache_of(path);
    let ways = wide(told.ways);
    let accesses = accesses_of(path);
    let mut cache = before;
    let mut misses: u64 = 0;
    let mut left = draws;
    for block in accesses {
        let drawn = digit(left, ways);
        misses = plus(misses, access(&mut cache, told, *block, drawn));
        left = other_digits(left, ways);
    }
    cell_of(contents(&cache, told.sets, tracked_of(path)), misses)
}

fn count_in(counts: &mut [u64; 256], cell: usize) {
    if cell < 256 {
        counts[cell] = plus(counts[cell], 1);
    }
}

// Counts each of the `all` choice sequences of a path, the cache being found as `kind` says: with nothing in it, or for 1, 2 and 3 as `Found` has them.
pub fn count_each(counts: &mut [u64; 256], kind: u32, path: &[u32], all: u64) {
    let told = cache_of(path);
    let before = cache_found(Found::from(kind), told.sets, wide(told.ways));
    for draws in 0..all {
        count_in(counts, walk(before, path, draws));
    }
}

// What of the count `n` in cell `cell` has more misses than `budget`.
fn part_above(n: u64, cell: usize, budget: u64) -> u64 {
    let misses = (cell % 16) as u64;
    if budget < misses {
        return n;
    }
    0
}

// How many sequences have more misses than `budget`.
pub fn sequences_above(counts: &[u64; 256], budget: u64) -> u64 {
    counts.iter().enumerate().fold(
        0,
        |above, (cell, n)| plus(above, part_above(*n, cell, budget)),
    )
}

// How many sequences were counted.
pub fn sequences_in(counts: &[u64; 256]) -> u64 {
    counts.iter().fold(0, |total, n| plus(total, *n))
}

// Adds the counts of all contents up: `totals` gets how many sequences have each miss count.
pub fn count_misses(totals: &mut [u64; 16], counts: &[u64; 256]) {
    for (cell, n) in counts.iter().enumerate() {
        let misses = cell % 16;
        totals[misses] = plus(totals[misses], *n);
    }
}
