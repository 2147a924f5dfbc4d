// A graph's row.
ghost use Rattle.std.specs.Prelude.{◌≡◌, true, ◌≤◌, length, take, Ok};
ghost use Rattle.rules.specs.Longest.{longest};
ghost use Rattle.rules.specs.Questions.{is_table, smallest_budget};
ghost use Rattle.rules.specs.Refusals.{verdict};
ghost use Rattle.words.specs.Tables.{table_of};
ghost use Rattle.curve_numbers.specs.Parts.{plain, complete, input_from};
ghost use Rattle.nightly.specs.Rows.{row_of};

use curve_numbers::Choice;
use night_rows::{Row, refused_row};
use parts::{analyse_numbers, longest_of_numbers};
use questions::smallest_budget_in;
use rules::{Finished, Start};

// Document 01's cache: one set, the first revision, found empty.
fn plain_choice() -> Choice
    ensures { result ≡ plain }
{
    Choice {
        sets: 1,
        revision: 1,
        start: Start::Cold,
    }
}

// The accesses of the longest path, where the graph call is accepted.
fn longest_of(numbers: &[u32]) -> u64
    requires { (complete numbers.now ≡ true) × (verdict (input_from plain numbers.now) ≡ Ok tt) }
    ensures { result ≡ longest (input_from plain numbers.now) }
{
    match longest_of_numbers(plain_choice(), numbers) {
        Ok(n) => n,
        Err(why) => 0,
    }
}

// The smallest budget for the allowance, of the table of `states` states in the result room.
fn budget_of(res: &[u64], states: usize, allowance: u64) -> u64
    requires { is_table (take states (table_of res.now)) ≡ true }
    ensures { result ≡ smallest_budget allowance (take states (table_of res.now)) }
{
    match smallest_budget_in(res, states, allowance) {
        Ok(n) => n,
        Err(why) => 0,
    }
}

// The row of a graph's numbers; the finished table goes to `res` on the way.
pub(crate) fn row_of(numbers: &[u32], allowance: u64, res: &mut [u64], work: &mut [u64]) -> Row
    requires { (320 ≤ length res.old) × (25920 ≤ length work.old) }
    ensures { result ≡ row_of allowance numbers.now }
{
    if 16384 < numbers.len() {
        return refused_row(9);
    }
    match analyse_numbers(plain_choice(), numbers, res, work) {
        Err(why) => refused_row(why.number()),
        Ok(Finished { states, aside }) => {
            let longest = longest_of(numbers);
            let budget = budget_of(res, states, allowance);
            Row {
                refusal: 0,
                states: states as u64,
                aside: aside.0,
                longest,
                budget,
            }
        }
    }
}
