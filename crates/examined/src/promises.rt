// What a table promises, held to the counted choice sequences of a path.
use crate::report::Report;
use crate::table::{units_above, units_in};
use sequences::counts::sequences_above;
use sequences::numbers::{WHOLE, at_most, equal, plus};

// A path: how many accesses and choice sequences it has, and whether it is a straight run whose blocks are all tracked.
#[derive(Clone, Copy)]
pub(crate) struct Path {
    pub accesses: u64,
    pub all: u64,
    pub tight: bool,
}

// What was answered of a graph beside its table: the units set aside, and the accesses of its longest path.
#[derive(Clone, Copy)]
pub(crate) struct Told {
    pub aside: u64,
    pub longest: u64,
}

// Tight: `units` above a budget exceed the share of the `above` sequences by no more than the units set aside.
fn is_tight(units: u64, aside: u64, above: u64, all: u64) -> bool {
    if units <= aside {
        return true;
    }
    at_most(units - aside, all, WHOLE, above)
}

// Safe: the share of the `above` sequences, those above a budget, is at most the units above it. And tight, where it has to be.
pub(crate) fn compare_units(
    units: u64,
    aside: u64,
    above: u64,
    path: Path,
    report: Report,
) -> Report {
    let safe = report.compared(at_most(WHOLE, above, units, path.all));
    if path.tight {
        return safe.compared(is_tight(units, aside, above, path.all));
    }
    safe
}

// At one budget of misses.
fn compare_above(
    table: &[u64],
    aside: u64,
    counts: &[u64; 256],
    path: Path,
    budget: u64,
    report: Report,
) -> Report {
    let above = sequences_above(counts, budget);
    compare_units(units_above(table, budget), aside, above, path, report)
}

// Exact: the units of a cell are its share of the sequences. Where there are neither, nothing is compared.
fn compare_exact(table: &[u64], sequences: u64, all: u64, cell: usize, report: Report) -> Report {
    let units = units_in(table, cell);
    if units == 0 {
        if sequences == 0 {
            return report;
        }
    }
    report.compared(equal(units, all, WHOLE, sequences))
}

// Every budget from 0 to one past the path's accesses.
pub(crate) fn hold_above(
    table: &[u64],
    aside: u64,
    counts: &[u64; 256],
    path: Path,
    report: Report,
) -> Report {
    let end = plus(path.accesses, 2);
    let mut done = report;
    for budget in 0..end {
        done = compare_above(table, aside, counts, path, budget, done);
    }
    done
}

// Exact in every cell. A state outside all cells would be missing from the units' total, which is compared too.
pub(crate) fn hold_exact(table: &[u64], counts: &[u64; 256], all: u64, report: Report) -> Report {
    let mut done = report;
    for (cell, sequences) in counts.iter().enumerate() {
        done = compare_exact(table, *sequences, all, cell, done);
    }
    done
}
