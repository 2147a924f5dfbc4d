// The answers: 7 for words that hold no table.
ghost use Rattle.std.specs.Prelude.{◌≡◌};
ghost use Rattle.rules.specs.Questions.{above_answer, budget_answer};
ghost use Rattle.words.specs.Tables.{table_of};

use crate::sums::{smallest, units_above};
use rules::{Refusal, Units};
use table_check::is_table;

pub(crate) fn above_of(words: &[u64], budget: u64) -> Result<Units, Refusal>
    ensures { result ≡ above_answer (table_of words.now) budget }
{
    if is_table(words) {
        return Ok(Units(units_above(words, budget)));
    }
    Err(Refusal::Row)
}

pub(crate) fn budget_of(words: &[u64], units: u64) -> Result<u64, Refusal>
    ensures { result ≡ budget_answer (table_of words.now) units }
{
    if is_table(words) {
        return Ok(smallest(words, units));
    }
    Err(Refusal::Row)
}
