// The cases, line by line: the first letter of a line says what it is.
use crate::graph::graph_line;
use crate::nights::night_line;
use case_text::fields::{kind_of, name_of, next_line, read_line};
use case_text::report::Report;

// A line of a graph, or of a list of graphs. One that begins with another letter is a remark, or empty.
fn case(kind: u8, name: &[u8], line: &[u64], report: Report) -> Report {
    match kind {
        b'w' | b'j' => graph_line(kind, name, line, report),
        b'r' | b'p' | b'f' | b'u' => {
            io::write_all(1, name);
            graph_line(kind, name, line, report)
        }
        b'o' => {
            io::write_all(1, name);
            night_line(line, report)
        }
        _ => report,
    }
}

// The line that begins at place `from`.
fn line_of(text: &[u8], from: usize, line: &mut [u64], report: Report) -> Report {
    read_line(text, from, line);
    case(kind_of(text, from), name_of(text, from), line, report)
}

// Every line of the text.
pub(crate) fn all_cases(text: &[u8], line: &mut [u64], report: Report) -> Report {
    let mut all = report;
    let mut from: usize = 0;
    // Kept as a while: a line ends where `next_line` finds its end, and no index counts the lines.
    while from < text.len() {
        all = line_of(text, from, line, all);
        from = next_line(text, from);
    }
    all
}
