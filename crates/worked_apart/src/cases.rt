// The cases, line by line: the first letter of a line says what it is.
use crate::inside::quick_line;
use crate::listings::listing_line;
use crate::recorded::trace_line;
use crate::state_rows::{allowed_line, ladder_line, row_line, time_line};
use case_text::fields::{field_of, kind_of, name_of, next_line, read_line};
use case_text::report::Report;

// The name of a line, which is written first; of a remark nothing is.
fn say_name(kind: u8, name: &[u8]) {
    match kind {
        b'#' | b'\n' => {}
        _ => {
            io::write_all(1, name);
        }
    }
}

// A line of a row, of a listing, or of a trace. One that begins with another letter is a remark, or empty.
fn case(kind: u8, line: &[u64], trace: &mut [u8], report: Report) -> Report {
    match kind {
        b'q' => row_line(line, field_of(line, 3), report),
        b't' => time_line(line, field_of(line, 2), report),
        b'a' => allowed_line(line, field_of(line, 2), report),
        b'l' => ladder_line(line, report),
        b'i' => quick_line(line, field_of(line, 2), report),
        b'c' => listing_line(line, report),
        b'n' | b'b' | b'e' | b's' | b'm' | b'd' | b'g' => trace_line(kind, line, trace, report),
        _ => report,
    }
}

// The line that begins at place `from`.
fn line_of(text: &[u8], from: usize, line: &mut [u64], trace: &mut [u8], report: Report) -> Report {
    read_line(text, from, line);
    let kind = kind_of(text, from);
    say_name(kind, name_of(text, from));
    case(kind, line, trace, report)
}

// Every line of the text.
pub(crate) fn all_cases(text: &[u8], line: &mut [u64], trace: &mut [u8], report: Report) -> Report {
    let mut all = report;
    let mut from: usize = 0;
    // Kept as a while: a line ends where `next_line` finds its end, and no index counts the lines.
    while from < text.len() {
        all = line_of(text, from, line, trace, all);
        from = next_line(text, from);
    }
    all
}
