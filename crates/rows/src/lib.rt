// The questions put to a finished table, asked of a lent row of states: each copies the row, by value, and asks the copy. Of document 01's table, and of the
// best case's.
#![tactic(auto)]

ghost use Rattle.std.specs.Prelude.{◌≡◌};
ghost use Rattle.rules.specs.Questions.{above_answer, budget_answer, spread_answer};
ghost use Rattle.rules.specs.BestQuestions.{miss_spread_answer, hit_spread_answer};
ghost use Rattle.rules.specs.Cycles.{above_cycles_answer, cycle_budget_answer};

use crate::best_row::{copy_best, hit_spread_held, miss_spread_held};
use crate::row::{
    above_cycles_held, above_held, budget_held, copy, cycle_budget_held, spread_held,
};
use rules::{BestState, Hits, Misses, Refusal, State, Units};

mod best_row;
mod row;

// The units above a budget: misses strictly greater.
pub fn above(row: &[State], budget: u64) -> Result<Units, Refusal>
    ensures { result ≡ above_answer row.now budget }
{
    above_held(copy(row), budget)
}

// The smallest budget whose units above are at most `units`.
pub fn smallest_budget(row: &[State], units: u64) -> Result<u64, Refusal>
    ensures { result ≡ budget_answer row.now units }
{
    budget_held(copy(row), units)
}

// The units at each miss count from 0 to the largest present, which is the answer; `room` has zeros beyond it.
pub fn spread(row: &[State], room: &mut [u64]) -> Result<u64, Refusal>
    ensures { record { answer = result; room = room.new } ≡ spread_answer row.now room.old }
{
    spread_held(copy(row), room)
}

// The units above a cycle budget, on the core of that number, where the longest path has `longest` accesses.
pub fn above_cycles(row: &[State], core: usize, longest: u64, budget: u64) -> Result<Units, Refusal>
    ensures { result ≡ above_cycles_answer row.now core longest budget }
{
    above_cycles_held(copy(row), core, longest, budget)
}

// The smallest cycle budget whose units above are at most `units`, on that core.
pub fn smallest_cycles(row: &[State], core: usize, longest: u64, units: u64) -> Result<u64, Refusal>
    ensures { result ≡ cycle_budget_answer row.now core longest units }
{
    cycle_budget_held(copy(row), core, longest, units)
}

// Of a row of the best case's states: the units at each miss count from 0 to the largest present, which is the answer; `room` has zeros beyond it.
pub fn miss_spread(row: &[BestState], room: &mut [u64]) -> Result<Misses, Refusal>
    ensures { record { answer = result; room = room.new } ≡ miss_spread_answer row.now room.old }
{
    miss_spread_held(copy_best(row), room)
}

// And at each hit count.
pub fn hit_spread(row: &[BestState], room: &mut [u64]) -> Result<Hits, Refusal>
    ensures { record { answer = result; room = room.new } ≡ hit_spread_answer row.now room.old }
{
    hit_spread_held(copy_best(row), room)
}
