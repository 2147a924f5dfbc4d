// What needs no graph call, by hand. Rows of states that are tables and rows that are not are asked every question of document 01, section 4, on both sides of 7 and 8, and every question in
// cycles (document 02, request 9/13); the quick question is asked of rows of any numbers (5/13). Listings are expanded (8/13). Traces are written, read and judged (7/13). After each call the
// rooms are compared word by word. The cases are read from standard input: the file `stdin` has them, a line each.
#![tactic(auto)]

use crate::cases::all_cases;
use case_text::report::Report;

mod cases;
mod inside;
mod listings;
mod recorded;
mod state_rows;

// The cases of a text: the numbers of a line, and the trace, have rooms for the longest that is there.
fn of_text(text: &[u8]) -> Report {
    let mut line: [u64; 4352] = [0; 4352];
    let mut trace: [u8; 16897] = [0; 16897];
    all_cases(text, &mut line, &mut trace, Report::empty())
}

fn main() {
    let mut text: [u8; 65536] = [0; 65536];
    let n = io::read_full(0, &mut text);
    of_text(&text[..n]).tell();
}
