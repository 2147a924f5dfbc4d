// The nightly build in one call: document 02, request 13/13.
#![tactic(auto)]

ghost use Rattle.std.specs.Prelude.{◌≡◌, true, ◌*◌, ◌≤◌, length, Ok};
ghost use Rattle.night_rows.specs.Graphs.{exactly, graphs_in};
ghost use Rattle.nightly.specs.Call.{rows_of, builds, after_build};

use crate::graphs::work_graphs;
use night_rows::{Report, count_graphs, judge_list};
use rules::Refusal;

mod counts;
mod graphs;
mod rows;

// The graphs of a list of numbers, each a count and so many numbers in the curve's order, with a common allowance. The rows go to `rows`, five words each, and `work` is
// used on the way.
pub fn build(
    numbers: &[u32],
    allowance: u64,
    rows: &mut [u64],
    work: &mut [u64],
) -> Result<Report, Refusal>
    ensures { record { answer = result; rows = rows.new; work = work.new } ≡ after_build numbers.now allowance rows.old work.old }
{
    judge_list(numbers, rows.len(), work.len())?;
    let count = count_graphs(numbers);
    Ok(build_all(numbers, allowance, rows, count, work))
}

// All rows, with zeros behind them, and their report, in rooms that are large enough. The table of each graph stands in an array on the way.
fn build_all(
    numbers: &[u32],
    allowance: u64,
    rows: &mut [u64],
    count: usize,
    work: &mut [u64],
) -> Report
    requires { (exactly numbers.now ≡ true) × (count ≡ length (graphs_in numbers.now)) × (count * 5 ≤ length rows.old) × (25920 ≤ length work.old) }
    ensures { record { answer = Ok result; rows = rows.new; work = work.new } ≡ builds (Ok tt) (rows_of allowance numbers.now) rows.old work.old }
{
    let mut result: [u64; 320] = [0; 320];
    let report = work_graphs(numbers, allowance, rows, &mut result, work);
    rows[count * 5..].fill(0);
    work.fill(0);
    report
}
