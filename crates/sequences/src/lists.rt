// The access lists of a graph, by number.
use crate::input::{accesses_of, blocks_of, put};
use crate::numbers::{digit, other_digits, power};

// Block numbers are 1 and up.
fn block_of(digit: u64) -> u32 {
    match digit {
        0 => 1,
        1 => 2,
        2 => 3,
        3 => 4,
        _ => 5,
    }
}

// The access list with number `number` is written to a row: the number's digits, to the base of how many blocks there are.
pub fn write_list(row: &mut [u32], number: u64) {
    let blocks = blocks_of(row);
    let mut left = number;
    for at in 36..52 {
        put(row, at, block_of(digit(left, blocks)));
        left = other_digits(left, blocks);
    }
}

// How many access lists there are.
pub fn lists_of(row: &[u32]) -> u64 {
    let accesses = accesses_of(row);
    power(blocks_of(row), accesses.len())
}
