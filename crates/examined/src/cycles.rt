// What a table promises in cycles (document 02, request 9/13), held to the counted choice sequences of a path.
use crate::cores::{Core, core_of, cycles_of};
use crate::promises::{Path, Told, compare_units};
use crate::report::Report;
use crate::table::if_above;
use questions::above_cycles_in;
use rules::{Refusal, Units};
use sequences::numbers::{TOO_LARGE, less, plus};

// The units of an answer; where it is a refusal every comparison fails.
fn units_of(answer: Result<Units, Refusal>) -> u64 {
    match answer {
        Ok(units) => units.0,
        Err(_) => TOO_LARGE,
    }
}

// How many sequences of a path take more cycles than `budget`: `counts` has them by their misses, and the other accesses hit.
fn sequences_above_cycles(counts: &[u64; 16], core: Core, accesses: u64, budget: u64) -> u64 {
    let mut above: u64 = 0;
    for (misses, n) in counts.iter().enumerate() {
        let cycles = cycles_of(core, accesses, misses as u64);
        above = plus(above, if_above(cycles, budget, *n));
    }
    above
}

// Safe, and tight where it has to be, at one cycle budget.
fn compare_cycles(
    table: &[u64],
    told: Told,
    counts: &[u64; 16],
    path: Path,
    core: usize,
    budget: u64,
    report: Report,
) -> Report {
    let above = sequences_above_cycles(counts, core_of(core), path.accesses, budget);
    let units = units_of(above_cycles_in(table, table.len(), core, told.longest, budget));
    compare_units(units, told.aside, above, path, report)
}

// On one core: a budget of 0, and for each miss count that the path can have, and one more, its cycles and one cycle less.
fn hold_core(
    table: &[u64],
    told: Told,
    counts: &[u64; 16],
    path: Path,
    core: usize,
    report: Report,
) -> Report {
    let end = plus(path.accesses, 2);
    let mut done = compare_cycles(table, told, counts, path, core, 0, report);
    for misses in 0..end {
        let cycles = cycles_of(core_of(core), path.accesses, misses);
        let below = compare_cycles(table, told, counts, path, core, less(cycles, 1), done);
        done = compare_cycles(table, told, counts, path, core, cycles, below);
    }
    done
}

// On every core.
pub(crate) fn hold_cycles(
    table: &[u64],
    told: Told,
    counts: &[u64; 16],
    path: Path,
    report: Report,
) -> Report {
    let mut done = report;
    for core in 0..12 {
        done = hold_core(table, told, counts, path, core, done);
    }
    done
}
