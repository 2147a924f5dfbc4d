// What has to be answered about the first `n` states of some words, five each, or about as many as there are.
use crate::cores::{Core, cycles_of, misses_alone};
use case_text::{MOST, plus};

// `units` where `cycles` are more than `budget`.
fn part_above(cycles: u64, budget: u64, units: u64) -> u64 {
    if budget < cycles {
        return units;
    }
    0
}

// The units of the states with more cycles than `budget`, in a path of `longest` accesses.
pub(crate) fn units_above_cycles(
    words: &[u64],
    n: usize,
    core: Core,
    longest: u64,
    budget: u64,
) -> u64 {
    let mut units: u64 = 0;
    for state in words.chunks_exact(5).take(n) {
        let cycles = cycles_of(core, longest, state[1]);
        units = plus(units, part_above(cycles, budget, state[4]));
    }
    units
}

// The cycles of `misses` misses where they are fewer than `least` and leave at most `units` above; otherwise `least`.
fn lesser(
    words: &[u64],
    n: usize,
    core: Core,
    longest: u64,
    units: u64,
    misses: u64,
    least: u64,
) -> u64 {
    let cycles = cycles_of(core, longest, misses);
    if least <= cycles {
        return least;
    }
    if units < units_above_cycles(words, n, core, longest, cycles) {
        return least;
    }
    cycles
}

// The smallest cycle budget that leaves at most `units` above. The units above change at the cycles of a state and nowhere else, so it is
// one of these, or 0.
pub(crate) fn first_cycles(words: &[u64], n: usize, core: Core, longest: u64, units: u64) -> u64 {
    if units_above_cycles(words, n, core, longest, 0) <= units {
        return 0;
    }
    let mut least = MOST;
    for state in words.chunks_exact(5).take(n) {
        least = lesser(words, n, core, longest, units, state[1], least);
    }
    least
}

// The units of the states with more misses than `budget`.
pub(crate) fn units_above(words: &[u64], n: usize, budget: u64) -> u64 {
    units_above_cycles(words, n, misses_alone(), 4096, budget)
}

// The smallest budget that leaves at most `units` above.
pub(crate) fn first_budget(words: &[u64], n: usize, units: u64) -> u64 {
    first_cycles(words, n, misses_alone(), 4096, units)
}

// The largest miss count.
pub fn last_count(words: &[u64], n: usize) -> u64 {
    first_budget(words, n, 0)
}

// `units` where `misses` are so many.
fn part_at(misses: u64, count: u64, units: u64) -> u64 {
    if misses == count {
        return units;
    }
    0
}

// The units of the states with `count` misses.
fn units_at(words: &[u64], n: usize, count: u64) -> u64 {
    let mut units: u64 = 0;
    for state in words.chunks_exact(5).take(n) {
        units = plus(units, part_at(state[1], count, state[4]));
    }
    units
}

// Whether each place of the room has the units of that miss count.
pub(crate) fn has_counts(room: &[u64], words: &[u64], n: usize) -> bool {
    room.iter().enumerate().all(|(count, units)| *units == units_at(words, n, count as u64))
}
