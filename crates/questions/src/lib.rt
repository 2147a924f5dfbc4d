// Questions put to a finished table: document 01, section 4, and document 02, request 9/13. Each is asked of the first `states` states of a table in
// words, or of all that there are: what the graph call left in its result room.
#![tactic(auto)]

ghost use Rattle.std.specs.Prelude.{◌≡◌, take};
ghost use Rattle.rules.specs.Questions.{above_answer, budget_answer, spread_answer};
ghost use Rattle.rules.specs.Cycles.{above_cycles_answer, cycle_budget_answer};
ghost use Rattle.words.specs.Tables.{table_of};

use crate::answers::{above_of, budget_of};
use crate::cycles::{above_cycles_of, cycle_budget_of};
use rules::{Misses, Refusal, Units};
use table_check::Table;
use words::span;

mod answers;
mod cycles;
mod one_state;
mod sums;

// The units above a budget: misses strictly greater.
pub fn above_in(words: &[u64], states: usize, budget: u64) -> Result<Units, Refusal>
    ensures { result ≡ above_answer (take states (table_of words.now)) budget }
{
    let end = span(words.len(), states);
    above_of(&words[..end], budget)
}

// The smallest budget whose units above are at most `units`.
pub fn smallest_budget_in(words: &[u64], states: usize, units: u64) -> Result<u64, Refusal>
    ensures { result ≡ budget_answer (take states (table_of words.now)) units }
{
    let end = span(words.len(), states);
    budget_of(&words[..end], units)
}

// The units at each miss count from 0 to the largest present, which is the answer; `room` has zeros beyond it.
pub fn spread_in(words: &[u64], states: usize, room: &mut [u64]) -> Result<u64, Refusal>
    ensures { record { answer = result; room = room.new } ≡ spread_answer (take states (table_of words.now)) room.old }
{
    any_table::spread_in::<Table, Misses>(words, states, room)
}

// The units above a cycle budget, on the core of that number, where the longest path has `longest` accesses.
pub fn above_cycles_in(
    words: &[u64],
    states: usize,
    core: usize,
    longest: u64,
    budget: u64,
) -> Result<Units, Refusal>
    ensures { result ≡ above_cycles_answer (take states (table_of words.now)) core longest budget }
{
    let end = span(words.len(), states);
    above_cycles_of(&words[..end], core, longest, budget)
}

// The smallest cycle budget whose units above are at most `units`, on that core.
pub fn smallest_cycles_in(
    words: &[u64],
    states: usize,
    core: usize,
    longest: u64,
    units: u64,
) -> Result<u64, Refusal>
    ensures { result ≡ cycle_budget_answer (take states (table_of words.now)) core longest units }
{
    let end = span(words.len(), states);
    cycle_budget_of(&words[..end], core, longest, units)
}
