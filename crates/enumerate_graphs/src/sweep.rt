// Many access lists for one graph.
use crate::joined::examine_joined;
use examined::examine::examine_limits;
use examined::report::Report;
use sequences::lists::{lists_of, write_list};
use sequences::numbers::digit;

// By a random pairing with a wide state limit and with a narrow one.
fn examine_pairings(row: &[u32], report: Report) -> Report {
    let wide = examine_joined(row, 64, report);
    examine_joined(row, 3, wide)
}

// One access list: `number` tells which. Where `stride` does not divide `number` it is left out.
fn examine_list(row: &mut [u32], stride: u64, number: u64, report: Report) -> Report {
    if digit(number, stride) != 0 {
        return report;
    }
    write_list(row, number);
    examine_pairings(row, examine_limits(row, report))
}

// Every access list of a row's graph, or every `stride`-th.
pub(crate) fn sweep(row: &mut [u32], stride: u64, report: Report) -> Report {
    let mut done = report;
    for number in 0..lists_of(row) {
        done = examine_list(row, stride, number, done);
    }
    done
}
