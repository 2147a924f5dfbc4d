// The cache of document 01, section 1, with the sets, revisions and starts of document 02, requests 1/13, 6/13 and 12/13, written down by itself: up to four sets
// of up to four ways. A set has four places in a row, each with a block's number, or 0 while the way is empty.
use crate::numbers::{read, wide};
use rules::Cache;

// A block for each way of four, in a set of its own; the low numbers are those of the runs.
fn blocks_of(sets: u32) -> [u32; 16] {
    match sets {
        1 => [1, 2, 3, 4, 0, 0, 0, 0, 0, 0, 0, 0, 0, 0, 0, 0],
        2 => [2, 4, 6, 8, 1, 3, 5, 7, 0, 0, 0, 0, 0, 0, 0, 0],
        _ => [4, 8, 12, 16, 1, 5, 9, 13, 2, 6, 10, 14, 3, 7, 11, 15],
    }
}

// How a cache is found: what each way holds before the first access.
#[derive(Clone, Copy)]
pub(crate) enum Found {
    Nothing,
    // The way's own block.
    Own,
    // A foreign block of the same set.
    Foreign,
    // The way's own block in the first way of a set, and nothing in the others.
    First,
}

impl From<u32> for Found {
    fn from(kind: u32) -> Found {
        match kind {
            1 => Found::Own,
            2 => Found::Foreign,
            3 => Found::First,
            _ => Found::Nothing,
        }
    }
}

// What a way holds before the first access, where `block` is its own block.
fn held_before(found: Found, way: usize, block: u32) -> u32 {
    if block == 0 {
        return 0;
    }
    if 16 < block {
        return 0;
    }
    match found {
        Found::Nothing => 0,
        Found::Own => block,
        Found::Foreign => block + 100,
        Found::First => {
            if way == 0 {
                return block;
            }
            0
        }
    }
}

// The cache as it is found.
pub(crate) fn cache_found(found: Found, sets: u32, ways: u64) -> [u32; 16] {
    let blocks = blocks_of(sets);
    let mut cache: [u32; 16] = [0; 16];
    for (i, place) in cache.iter_mut().enumerate() {
        let way = i % 4;
        if (way as u64) < ways {
            *place = held_before(found, way, blocks[i]);
        }
    }
    cache
}

// Where the places of the block's set begin.
fn base_of(sets: u32, block: u32) -> usize {
    if sets == 0 {
        return 0;
    }
    match block % sets {
        0 => 0,
        1 => 4,
        2 => 8,
        _ => 12,
    }
}

// Whether `block` is in one of the four places from `base` on.
fn holds(cache: &[u32; 16], base: usize, block: u32) -> bool {
    if 12 < base {
        return false;
    }
    if cache[base] == block {
        return true;
    }
    if cache[base + 1] == block {
        return true;
    }
    if cache[base + 2] == block {
        return true;
    }
    cache[base + 3] == block
}

// The block is written to a way of the set whose places begin at `base`.
fn overwrite(cache: &mut [u32; 16], base: usize, way: u64, block: u32) {
    if way < 4 {
        if base < 13 {
            cache[base + way as usize] = block;
        }
    }
}

// Whether way `way`, one of `ways`, of the set whose places begin at `base` is empty.
fn is_empty(cache: &[u32; 16], base: usize, ways: u64, way: usize) -> bool {
    if ways <= way as u64 {
        return false;
    }
    if 12 < base {
        return false;
    }
    if 3 < way {
        return false;
    }
    cache[base + way] == 0
}

// The way that a miss overwrites: in the first revision the drawn one, empty or not; in the second the first empty one, while there is one.
fn victim(cache: &[u32; 16], base: usize, ways: u64, revision: u32, drawn: u64) -> u64 {
    if revision == 1 {
        return drawn;
    }
    for way in 0..4 {
        if is_empty(cache, base, ways, way) {
            return way as u64;
        }
    }
    drawn
}

// An access to `block` for which the way `drawn` is drawn: 1 where it misses. A hit changes nothing.
pub(crate) fn access(cache: &mut [u32; 16], told: Cache, block: u32, drawn: u64) -> u64 {
    let base = base_of(told.sets, block);
    if holds(cache, base, block) {
        return 0;
    }
    let way = victim(cache, base, wide(told.ways), told.revision, drawn);
    overwrite(cache, base, way, block);
    1
}

// The bit `value` where the cache holds `block`; 0 is no block.
fn bit(cache: &[u32; 16], sets: u32, block: u32, value: u64) -> u64 {
    if block == 0 {
        return 0;
    }
    if holds(cache, base_of(sets, block), block) {
        return value;
    }
    0
}

// The contents as a mask: the first tracked block is bit 0. At most four blocks are tracked here.
pub(crate) fn contents(cache: &[u32; 16], sets: u32, tracked: &[u32]) -> u64 {
    let first = bit(cache, sets, read(tracked, 0), 1);
    let second = bit(cache, sets, read(tracked, 1), 2);
    let third = bit(cache, sets, read(tracked, 2), 4);
    let fourth = bit(cache, sets, read(tracked, 3), 8);
    first | second | third | fourth
}
