// The lines of a row of states: rows that are tables and rows that are not, asked in misses and in cycles. The fields are
//
//     question NAME | answer | counts | words            every question about so many states of the words; the answer to the first count is written
//     ladder NAME   | answer | counts | states, halves   the same of a ladder of so many states, which are halves from that place on
//     time NAME     | core, longest path, answer | words             both questions in cycles
//     allowed       | core, longest path, units, cycles | words      the smallest cycle budget for so many units
//
// where the answer is 0 or the number of a refusal.
use case_questions::expected::last_count;
use case_questions::in_cycles::{above, budget, every_core, refused};
use case_questions::in_misses::{every_question, spread};
use case_text::fields::{field_of, number};
use case_text::plus;
use case_text::report::Report;
use case_text::rooms::first;
use case_text::said::count_said;
use case_text::shown::{say, say_answer};
use questions::{above_cycles_in, above_in, smallest_budget_in, smallest_cycles_in};

// 2^42 and 2^41: of these, 64 and 128 make WHOLE.
const STEP: u64 = 4398046511104;

const HALF_STEP: u64 = 2199023255552;

// A table, with the shortest and the longest path that it can have, on every core.
fn table_in_cycles(words: &[u64], n: usize, report: Report) -> Report {
    let last = last_count(words, n);
    let end = plus(last, 1);
    let long = every_core(words, n, 4096, last, end, report);
    let exact = every_core(words, n, last, last, end, long);
    if last == 0 {
        return exact;
    }
    refused(words, n, 11, last - 1, 7, exact)
}

// No table, which is refused with `answer`: 16 and 4 come before it.
fn row_in_cycles(words: &[u64], n: usize, answer: u64, report: Report) -> Report {
    let core = refused(words, n, 12, 4097, 16, report);
    let long = refused(words, n, 11, 4097, 4, core);
    refused(words, n, 11, 4096, answer, long)
}

// Every question about the first `n` states of `words` is refused with `answer`, in long room and in none.
fn row_refused(words: &[u64], n: usize, answer: u64, report: Report) -> Report {
    let units = count_said(above_in(words, n, 0).map(|units| units.0));
    let misses = count_said(smallest_budget_in(words, n, 0));
    let asked = report
        .compared(units.refusal == answer)
        .compared(misses.refusal == answer);
    let cycles = row_in_cycles(words, n, answer, asked);
    let long = spread(words, n, 4100, answer, cycles);
    spread(words, n, 0, answer, long)
}

// Every question about the first `n` states of `words`, which are a table where `answer` is 0.
fn row(words: &[u64], n: usize, answer: u64, report: Report) -> Report {
    if answer == 0 {
        let asked = every_question(words, n, 4100, report);
        return table_in_cycles(words, n, asked);
    }
    row_refused(words, n, answer, report)
}

// The row of a line, for each of its counts.
pub(crate) fn row_line(line: &[u64], words: &[u64], report: Report) -> Report {
    let answer = number(line, 1, 0);
    let said = count_said(above_in(words, number(line, 2, 0) as usize, 0).map(|units| units.0));
    say_answer(said.refusal);
    let mut all = report;
    for n in field_of(line, 2) {
        all = row(words, *n as usize, answer, all);
    }
    all
}

// A state at each mask from 0 on, with as many misses: 2^42 units each, and half of that from place `halves` on.
fn ladder(words: &mut [u64], halves: usize) {
    for (i, state) in words.chunks_exact_mut(5).enumerate() {
        state[0] = i as u64;
        state[1] = i as u64;
        state[4] = step_units(i, halves);
    }
}

fn step_units(i: usize, halves: usize) -> u64 {
    if i < halves {
        return STEP;
    }
    HALF_STEP
}

pub(crate) fn ladder_line(line: &[u64], report: Report) -> Report {
    let mut room: [u64; 15000] = [0; 15000];
    let states = number(line, 3, 0);
    if 3000 < states {
        return report.compared(false);
    }
    let words = first(&mut room, states * 5);
    ladder(words, number(line, 3, 1) as usize);
    row_line(line, words, report)
}

// Both questions in cycles.
pub(crate) fn time_line(line: &[u64], words: &[u64], report: Report) -> Report {
    let n = words.len() / 5;
    let core = number(line, 1, 0) as usize;
    let longest = number(line, 1, 1);
    let answer = number(line, 1, 2);
    let said = count_said(above_cycles_in(words, n, core, longest, 0).map(|units| units.0));
    say_answer(said.refusal);
    if answer == 0 {
        let units = above(words, n, core, longest, 0, report);
        return budget(words, n, core, longest, 0, units);
    }
    refused(words, n, core, longest, answer, report)
}

// The smallest cycle budget for a number of units.
pub(crate) fn allowed_line(line: &[u64], words: &[u64], report: Report) -> Report {
    let core = number(line, 1, 0) as usize;
    let longest = number(line, 1, 1);
    let units = number(line, 1, 2);
    let said = count_said(smallest_cycles_in(words, words.len() / 5, core, longest, units));
    io::write_all(1, b"cycles: at most ");
    io::print_decimal(1, units);
    say(b" above: ", said.value);
    report
        .compared(said.refusal == 0)
        .compared(said.value == number(line, 1, 3))
}
