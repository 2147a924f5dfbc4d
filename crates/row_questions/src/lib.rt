// Questions put to the second analysis' answer: a lent row of units, of which cell m has those at m misses. Document 01, section 4, and document 02, request 9/13. The quick yes or no of document 02,
// request 5/13, is asked of the row as it is, by `quick`.
#![tactic(auto)]

ghost use Rattle.std.specs.Prelude.{◌≡◌};
ghost use Rattle.row_questions.specs.Row.{row_above, row_budget, row_spread, row_above_cycles, row_cycle_budget};

use crate::cells::{is_row, largest, smallest, units_above};
use crate::cycles::{fewest_cycles, judged, units_above_cycles};
use rules::{Refusal, Units};

mod cells;
mod cycles;

// The units above a budget: misses strictly greater.
pub fn row_above(row: &[u64], budget: u64) -> Result<Units, Refusal>
    ensures { result ≡ row_above row.now budget }
{
    if is_row(row) {
        return Ok(Units(units_above(row, budget)));
    }
    Err(Refusal::Row)
}

// The smallest budget whose units above are at most `units`.
pub fn row_smallest_budget(row: &[u64], units: u64) -> Result<u64, Refusal>
    ensures { result ≡ row_budget row.now units }
{
    if is_row(row) {
        return Ok(smallest(row, units));
    }
    Err(Refusal::Row)
}

// The spread is the row up to the largest miss count present, which is the answer.
pub fn row_spread(row: &[u64]) -> Result<u64, Refusal>
    ensures { result ≡ row_spread row.now }
{
    if is_row(row) {
        return Ok(largest(row));
    }
    Err(Refusal::Row)
}

// The units above a cycle budget, on the core of that number, where the longest path has `longest` accesses.
pub fn row_above_cycles(
    row: &[u64],
    core: usize,
    longest: u64,
    budget: u64,
) -> Result<Units, Refusal>
    ensures { result ≡ row_above_cycles row.now core longest budget }
{
    judged(row, core, longest)?;
    Ok(Units(units_above_cycles(row, core, longest, budget)))
}

// The smallest cycle budget whose units above are at most `units`, on that core.
pub fn row_smallest_cycles(
    row: &[u64],
    core: usize,
    longest: u64,
    units: u64,
) -> Result<u64, Refusal>
    ensures { result ≡ row_cycle_budget row.now core longest units }
{
    judged(row, core, longest)?;
    Ok(fewest_cycles(row, core, longest, units))
}
