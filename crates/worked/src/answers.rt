// The questions put to a table that the graph call left in its result room, whose states are compared with the document's: the answers as they are written, and every question compared.
use case_questions::WHOLE;
use case_questions::in_cycles::every_core;
use case_questions::in_misses::every_question;
use case_text::plus;
use case_text::report::Report;
use case_text::said::count_said;
use case_text::shown::{end_line, say_number};
use questions::{above_cycles_in, above_in, smallest_budget_in, smallest_cycles_in, spread_in};

// 2^47 units.
const HALF: u64 = 140737488355328;

// One in 10^9, in units, rounded down.
const RARE: u64 = 281474;

// The beginning of a line: the name, and some words.
fn begin(name: &[u8], words: &[u8]) {
    io::write_all(1, name);
    io::write_all(1, words);
}

fn say_budget(res: &[u64], n: usize, units: u64) {
    say_number(count_said(smallest_budget_in(res, n, units)).value);
}

fn say_budgets(name: &[u8], res: &[u64], n: usize) {
    begin(name, b" budgets");
    say_budget(res, n, 0);
    say_budget(res, n, RARE);
    say_budget(res, n, HALF);
    say_budget(res, n, WHOLE - 1);
    say_budget(res, n, WHOLE);
    end_line();
}

// The units above each budget up to the last count.
fn say_above(name: &[u8], res: &[u64], n: usize, last: u64) {
    begin(name, b" above");
    for budget in 0..plus(last, 1) {
        say_number(count_said(above_in(res, n, budget).map(|units| units.0)).value);
    }
    end_line();
}

fn say_spread(name: &[u8], room: &[u64], last: u64) {
    begin(name, b" spread");
    for units in room.iter().take(plus(last, 1) as usize) {
        say_number(*units);
    }
    end_line();
}

fn say_answers(name: &[u8], res: &[u64], n: usize) {
    let mut room: [u64; 4097] = [0; 4097];
    let last = count_said(spread_in(res, n, &mut room)).value;
    say_spread(name, &room, last);
    say_above(name, res, n, last);
    say_budgets(name, res, n);
}

// The units above 40 cycles, a number for each core.
fn say_above_cycles(name: &[u8], res: &[u64], n: usize, longest: u64) {
    begin(name, b" above 40 cycles:");
    for core in 0..12 {
        say_number(
            count_said(above_cycles_in(res, n, core, longest, 40).map(|units| units.0)).value,
        );
    }
    end_line();
}

// The smallest cycle budgets for a number of units, a number for each core.
fn say_cycle_budgets(name: &[u8], res: &[u64], n: usize, longest: u64, units: u64) {
    begin(name, b" cycles for at most");
    say_number(units);
    io::write_all(1, b" above:");
    for core in 0..12 {
        say_number(count_said(smallest_cycles_in(res, n, core, longest, units)).value);
    }
    end_line();
}

fn say_cycles(name: &[u8], res: &[u64], n: usize, longest: u64) {
    begin(name, b" longest path");
    say_number(longest);
    end_line();
    say_above_cycles(name, res, n, longest);
    say_cycle_budgets(name, res, n, longest, RARE);
    say_cycle_budgets(name, res, n, longest, HALF);
}

// A worked case, whose longest path has `longest` accesses: its answers are written, and every question is compared.
pub(crate) fn ask_case(name: &[u8], res: &[u64], n: usize, longest: u64, report: Report) -> Report {
    say_answers(name, res, n);
    say_cycles(name, res, n, longest);
    let asked = every_question(res, n, 10, report);
    every_core(res, n, longest, 0, plus(longest, 1), asked)
}
