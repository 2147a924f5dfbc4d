// The report on all graphs.
ghost use Rattle.std.specs.Prelude.{◌≡◌, cond, ◌+◌, ◌≤◌, eqb};
ghost use Rattle.night_rows.specs.Report.{with_row};

use night_rows::{Report, Row};

// The count, and one more where the refusal has that number.
fn one_more(count: u64, refusal: u64, number: u64) -> u64
    requires { count ≤ 256 }
    ensures { result ≡ count + cond (eqb refusal number) 1 0 }
{
    if refusal == number {
        return count + 1;
    }
    count
}

// The report with one row more. Of 256 graphs none sets more than 2^48 units aside, so that no sum is above 2^56.
pub(crate) fn tally(report: Report, row: Row) -> Report
    requires { (report.accepted ≤ 256) × (report.text ≤ 256) × (report.ways ≤ 256) × (report.limit ≤ 256) × (report.tracked ≤ 256) × (report.accesses ≤ 256) × (report.graph ≤ 256) × (report.aside + row.aside ≤ 72057594037927936) }
    ensures { result ≡ with_row report row }
{
    Report {
        accepted: one_more(report.accepted, row.refusal, 0),
        text: one_more(report.text, row.refusal, 9),
        ways: one_more(report.ways, row.refusal, 1),
        limit: one_more(report.limit, row.refusal, 2),
        tracked: one_more(report.tracked, row.refusal, 3),
        accesses: one_more(report.accesses, row.refusal, 4),
        graph: one_more(report.graph, row.refusal, 5),
        aside: report.aside + row.aside,
    }
}
