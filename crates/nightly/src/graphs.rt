// The graphs of a list, one after the other.
ghost use Rattle.std.specs.Prelude.{◌≡◌, true, ◌++◌, ◌+◌, ◌*◌, ◌≤◌, length, take, drop};
ghost use Rattle.night_rows.specs.Graphs.{exactly, graphs_in};
ghost use Rattle.night_rows.specs.Rows.{row_words, rows_words};
ghost use Rattle.night_rows.specs.Report.{report_of};
ghost use Rattle.nightly.specs.Rows.{row_of};
ghost use Rattle.nightly.specs.Call.{rows_of};

use crate::counts::tally;
use crate::rows::row_of;
use curve_numbers::end_of;
use night_rows::{Report, Row, put_row};

// The row of a graph's numbers, written as row `at`.
pub(crate) fn work_graph(
    numbers: &[u32],
    allowance: u64,
    rows: &mut [u64],
    at: usize,
    res: &mut [u64],
    work: &mut [u64],
) -> Row
    requires { (at * 5 + 5 ≤ length rows.old) × (320 ≤ length res.old) × (25920 ≤ length work.old) }
    ensures value { result ≡ row_of allowance numbers.now }
    ensures rows_after { rows.new ≡ take (at * 5) rows.old ++ (row_words result ++ drop (at * 5 + 5) rows.old) }
{
    let row = row_of(numbers, allowance, res, work);
    put_row(&mut rows[at * 5..at * 5 + 5], row);
    row
}

// The row of each graph, at the front of the rows, and the report on all of them; the finished table of each goes to `res` on the way.
pub(crate) fn work_graphs(
    numbers: &[u32],
    allowance: u64,
    rows: &mut [u64],
    res: &mut [u64],
    work: &mut [u64],
) -> Report
    requires { (exactly numbers.now ≡ true) × (length (graphs_in numbers.now) * 5 ≤ length rows.old) × (320 ≤ length res.old) × (25920 ≤ length work.old) }
    ensures value { result ≡ report_of (rows_of allowance numbers.now) }
    ensures rows_after { take (length (graphs_in numbers.now) * 5) rows.new ≡ rows_words (rows_of allowance numbers.now) }
{
    let mut report = Report {
        accepted: 0,
        text: 0,
        ways: 0,
        limit: 0,
        tracked: 0,
        accesses: 0,
        graph: 0,
        aside: 0,
    };
    let mut at: usize = 0;
    let mut count: usize = 0;
    // From graph to graph: each ends where its own count says.
    while at < numbers.len() {
        let end = end_of(numbers, at, 1);
        let row = work_graph(&numbers[at + 1..end], allowance, rows, count, res, work);
        report = tally(report, row);
        at = end;
        count += 1;
    }
    report
}
