// The questions in cycles put to a table in words (document 02, request 9/13).
use crate::WHOLE;
use crate::cores::{core_of, cycles_of};
use crate::expected::{first_cycles, units_above, units_above_cycles};
use case_text::report::Report;
use case_text::said::count_said;
use case_text::{MOST, one_less, plus};
use questions::{above_cycles_in, smallest_cycles_in};

// ---- one question

// The units above one cycle budget.
pub fn above(
    words: &[u64],
    n: usize,
    core: usize,
    longest: u64,
    budget: u64,
    report: Report,
) -> Report {
    let said = count_said(above_cycles_in(words, n, core, longest, budget).map(|units| units.0));
    report.compared(said.refusal == 0).compared(
        said.value == units_above_cycles(words, n, core_of(core), longest, budget),
    )
}

// The smallest cycle budget for one number of units.
pub fn budget(
    words: &[u64],
    n: usize,
    core: usize,
    longest: u64,
    units: u64,
    report: Report,
) -> Report {
    let said = count_said(smallest_cycles_in(words, n, core, longest, units));
    report.compared(said.refusal == 0).compared(
        said.value == first_cycles(words, n, core_of(core), longest, units),
    )
}

// Both questions are refused with `refusal`.
pub fn refused(
    words: &[u64],
    n: usize,
    core: usize,
    longest: u64,
    refusal: u64,
    report: Report,
) -> Report {
    let units = count_said(above_cycles_in(words, n, core, longest, 0).map(|units| units.0));
    let cycles = count_said(smallest_cycles_in(words, n, core, longest, 0));
    report
        .compared(units.refusal == refusal)
        .compared(cycles.refusal == refusal)
}

// ---- many questions

// The smallest cycle budgets for `units`, for one unit less and for one more.
fn budgets_around(
    words: &[u64],
    n: usize,
    core: usize,
    longest: u64,
    units: u64,
    report: Report,
) -> Report {
    let less = budget(words, n, core, longest, one_less(units), report);
    let exact = budget(words, n, core, longest, units, less);
    budget(words, n, core, longest, plus(units, 1), exact)
}

// The cycles of a miss count as the budget, one cycle less and one more; and the smallest cycle budgets around the units above it.
fn around(
    words: &[u64],
    n: usize,
    core: usize,
    longest: u64,
    misses: u64,
    report: Report,
) -> Report {
    let cycles = cycles_of(core_of(core), longest, misses);
    let less = above(words, n, core, longest, one_less(cycles), report);
    let exact = above(words, n, core, longest, cycles, less);
    let more = above(words, n, core, longest, plus(cycles, 1), exact);
    let units = units_above(words, n, misses);
    budgets_around(words, n, core, longest, units, more)
}

// Each miss count from `from` up to below `end`.
fn each_count(
    words: &[u64],
    n: usize,
    core: usize,
    longest: u64,
    from: u64,
    end: u64,
    report: Report,
) -> Report {
    let mut all = report;
    for misses in from..end {
        all = around(words, n, core, longest, misses, all);
    }
    all
}

// The smallest and the largest numbers.
fn ends(words: &[u64], n: usize, core: usize, longest: u64, report: Report) -> Report {
    let least = above(words, n, core, longest, 0, report);
    let most = above(words, n, core, longest, MOST, least);
    let none = budget(words, n, core, longest, 0, most);
    let one = budget(words, n, core, longest, 1, none);
    let whole = budgets_around(words, n, core, longest, WHOLE, one);
    budget(words, n, core, longest, MOST, whole)
}

// On every core: the smallest and the largest numbers, and those around each miss count from `from` up to below `end`.
pub fn every_core(
    words: &[u64],
    n: usize,
    longest: u64,
    from: u64,
    end: u64,
    report: Report,
) -> Report {
    let mut all = report;
    for core in 0..12 {
        let asked = ends(words, n, core, longest, all);
        all = each_count(words, n, core, longest, from, end, asked);
    }
    all
}
