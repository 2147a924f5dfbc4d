// The questions in misses put to a table in words.
use crate::expected::{first_budget, has_counts, last_count, units_above};
use case_text::report::Report;
use case_text::rooms::{first, is_marked, mark};
use case_text::said::count_said;
use case_text::{MOST, one_less, plus};
use questions::{above_in, smallest_budget_in, spread_in};

// The spread in room for so many words, or a refusal, which leaves the room as it was.
pub fn spread(words: &[u64], n: usize, room_words: u64, answer: u64, report: Report) -> Report {
    let mut longest: [u64; 4100] = [0; 4100];
    let room = first(&mut longest, room_words);
    mark(room);
    let said = count_said(spread_in(words, n, room));
    let told = report.compared(said.refusal == answer);
    if answer != 0 {
        return told.compared(is_marked(room));
    }
    told.compared(said.value == last_count(words, n))
        .compared(has_counts(room, words, n))
}

// The units above one budget.
fn above(words: &[u64], n: usize, budget: u64, report: Report) -> Report {
    let said = count_said(above_in(words, n, budget).map(|units| units.0));
    report
        .compared(said.refusal == 0)
        .compared(said.value == units_above(words, n, budget))
}

// The smallest budget for one number of units.
fn budget(words: &[u64], n: usize, units: u64, report: Report) -> Report {
    let said = count_said(smallest_budget_in(words, n, units));
    report
        .compared(said.refusal == 0)
        .compared(said.value == first_budget(words, n, units))
}

// One budget, and for the units above it, and one unit less, the smallest budget.
fn around(words: &[u64], n: usize, misses: u64, report: Report) -> Report {
    let units = units_above(words, n, misses);
    let found = above(words, n, misses, report);
    let served = budget(words, n, units, found);
    budget(words, n, one_less(units), served)
}

// Each budget below `end`.
fn each_budget(words: &[u64], n: usize, end: u64, report: Report) -> Report {
    let mut all = report;
    for misses in 0..end {
        all = around(words, n, misses, all);
    }
    all
}

// Every question that can be put to a table of `n` states; the spread in room for exactly as many words as are needed, for one less, and for `more`.
pub fn every_question(words: &[u64], n: usize, more: u64, report: Report) -> Report {
    let last = last_count(words, n);
    let long = spread(words, n, more, 0, report);
    let exact = spread(words, n, plus(last, 1), 0, long);
    let short = spread(words, n, last, 8, exact);
    let budgets = each_budget(words, n, plus(last, 2), short);
    let most = budget(words, n, MOST, budgets);
    above(words, n, MOST, most)
}
