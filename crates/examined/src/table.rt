// Reading a finished table: five words a state (mask, misses, two of filled numbers, units).
use sequences::numbers::plus;

// All units.
pub(crate) fn total(table: &[u64]) -> u64 {
    table
        .chunks_exact(5)
        .fold(0, |units, state| plus(units, state[4]))
}

// `n` where `taken`, misses or cycles, are more than `budget`.
pub(crate) fn if_above(taken: u64, budget: u64, n: u64) -> u64 {
    if budget < taken {
        return n;
    }
    0
}

// The units with more misses than `budget`.
pub(crate) fn units_above(table: &[u64], budget: u64) -> u64 {
    let mut units: u64 = 0;
    for state in table.chunks_exact(5) {
        units = plus(units, if_above(state[1], budget, state[4]));
    }
    units
}

// `units` where a state's contents and misses are those of a cell.
fn if_in(mask: u64, misses: u64, cell: usize, units: u64) -> u64 {
    if mask != (cell / 16) as u64 {
        return 0;
    }
    if misses != (cell % 16) as u64 {
        return 0;
    }
    units
}

// The units with the contents and misses of a cell.
pub(crate) fn units_in(table: &[u64], cell: usize) -> u64 {
    let mut units: u64 = 0;
    for state in table.chunks_exact(5) {
        units = plus(units, if_in(state[0], state[1], cell, state[4]));
    }
    units
}
