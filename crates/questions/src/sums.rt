// What is asked of a table in words: the units above a budget, the smallest budget.
ghost use Rattle.std.specs.Prelude.{◌≡◌, ◌≤◌};
ghost use Rattle.rules.specs.Units.{whole};
ghost use Rattle.rules.specs.Table.{total};
ghost use Rattle.rules.specs.Questions.{above, smallest_budget};
ghost use Rattle.words.specs.Tables.{table_of};

use crate::one_state::part_above;
use cycle_check::largest;
use words::state_at;

// The units of the states with more misses than `budget`.
pub(crate) fn units_above(words: &[u64], budget: u64) -> u64
    requires { total (table_of words.now) ≤ whole }
    ensures { result ≡ above budget (table_of words.now) }
{
    let mut sum: u64 = 0;
    for i in 0..words.len() / 5 {
        sum += part_above(state_at(words, i), budget);
    }
    sum
}

// The smallest budget whose units above are at most `units`: by halves, since the units above fall as the budget grows.
pub(crate) fn smallest(words: &[u64], units: u64) -> u64
    requires { total (table_of words.now) ≤ whole }
    ensures { result ≡ smallest_budget units (table_of words.now) }
{
    let mut low: u64 = 0;
    let mut high = largest(words);
    // By halves, over budgets: there is no slice of them to search.
    while low < high {
        let middle = low + (high - low) / 2;
        if units_above(words, middle) <= units {
            high = middle;
        } else {
            low = middle + 1;
        }
    }
    low
}
