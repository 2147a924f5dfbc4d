// Every number that document 01 gives, through the graph call and the questions: the worked cases of section 6, each asked every
// question, and both sides of each refusal of section 5 but the text's. After each call the rooms are compared word by word. Cases on
// caches with sets (document 02, request 1/13), of the same untracked block twice running (3/13), of the second revision (6/13) and of a used cache (12/13) are worked by hand. The longest path
// and the questions in cycles (9/13) are asked of the same graphs, and the longest path of some more. Cases 1 to 5 and 9 are read as best case too (10/13), with both spreads. Graphs are joined by
// pairings (11/13), and lists of graphs are judged in one nightly build (13/13). The cases are read from standard input: the file `stdin` has them, a line each.
#![tactic(auto)]

use crate::cases::all_cases;
use case_text::report::Report;

mod answers;
mod calling;
mod cases;
mod floors;
mod graph;
mod nights;

// The cases of a text: the numbers of a line have room for the longest that is there.
fn of_text(text: &[u8]) -> Report {
    let mut line: [u64; 4352] = [0; 4352];
    all_cases(text, &mut line, Report::empty())
}

fn main() {
    let mut text: [u8; 65536] = [0; 65536];
    let n = io::read_full(0, &mut text);
    of_text(&text[..n]).tell();
}
