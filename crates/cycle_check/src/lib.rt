// What is decided before a question in cycles is worked: document 02, request 9/13.
#![tactic(auto)]

ghost use Rattle.std.specs.Prelude.{◌≡◌};
ghost use Rattle.rules.specs.Answers.{first};
ghost use Rattle.rules.specs.Cycles.{cycle_reasons};
ghost use Rattle.rules.specs.Questions.{largest as largest_of};
ghost use Rattle.words.specs.Tables.{table_of};

use rules::{Misses, Refusal};
use table_check::{Table, is_table};

// The largest miss count present.
pub fn largest(words: &[u64]) -> u64
    ensures { result ≡ largest_of (table_of words.now) }
{
    any_table::largest::<Table, Misses>(words)
}

// What is decided before any work: 16, then 4, then 7.
#[tactic(auto, unfolding(rules::specs::Cycles::cycle_reasons, rules::specs::Cycles::cores))]
pub fn judged(words: &[u64], core: usize, longest: u64) -> Result<(), Refusal>
    ensures { result ≡ first (cycle_reasons core longest (table_of words.now)) }
{
    if 12 <= core {
        return Err(Refusal::NoCore);
    }
    if 4096 < longest {
        return Err(Refusal::Accesses);
    }
    if !is_table(words) {
        return Err(Refusal::Row);
    }
    if longest < largest(words) {
        return Err(Refusal::Row);
    }
    Ok(())
}
