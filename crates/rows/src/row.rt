// A lent row of states, by value: what is asked of it is asked of its words.
ghost use Rattle.std.specs.Prelude.{◌≡◌};
ghost use Rattle.rules.specs.Questions.{above_answer, budget_answer, spread_answer};
ghost use Rattle.rules.specs.Cycles.{above_cycles_answer, cycle_budget_answer};
ghost use Rattle.rows.specs.Rows.{states, nothing_held, one_more, copied, states_of};

use questions::{above_cycles_in, above_in, smallest_budget_in, smallest_cycles_in, spread_in};
use rules::{Refusal, State, Units};

// The first states of a row, 65 at most: one more than a table has.
#[derive(Clone, Copy)]
pub(crate) struct Held {
    pub states: usize,
    pub words: [u64; 325],
}

// No state is held.
pub(crate) fn nothing() -> Held
    ensures { result ≡ nothing_held }
{
    let words = [0; 325];
    Held { states: 0, words }
}

// One state more; where there is no room for it, the row is no table whatever follows.
pub(crate) fn hold(held: Held, s: State) -> Held
    ensures { result ≡ one_more states held s }
{
    let n = held.states;
    if 64 < n {
        return held;
    }
    let f = s.filled;
    let u = s.units;
    let mut words = held.words;
    words[n * 5] = s.mask;
    words[n * 5 + 1] = s.misses;
    words[n * 5 + 2] = f.front;
    words[n * 5 + 3] = f.back;
    words[n * 5 + 4] = u.0;
    Held {
        states: n + 1,
        words,
    }
}

// The walk: each state of the row in turn.
pub(crate) fn copy(row: &[State]) -> Held
    ensures { result ≡ copied states row.now }
{
    let mut held = nothing();
    for s in row {
        held = hold(held, *s);
    }
    held
}

// What is held is asked the units above a budget.
pub(crate) fn above_held(held: Held, budget: u64) -> Result<Units, Refusal>
    ensures { result ≡ above_answer (states_of states held) budget }
{
    let words = held.words;
    above_in(&words, held.states, budget)
}

// The smallest budget.
pub(crate) fn budget_held(held: Held, units: u64) -> Result<u64, Refusal>
    ensures { result ≡ budget_answer (states_of states held) units }
{
    let words = held.words;
    smallest_budget_in(&words, held.states, units)
}

// The spread.
pub(crate) fn spread_held(held: Held, room: &mut [u64]) -> Result<u64, Refusal>
    ensures { record { answer = result; room = room.new } ≡ spread_answer (states_of states held) room.old }
{
    let words = held.words;
    spread_in(&words, held.states, room)
}

// The units above a cycle budget.
pub(crate) fn above_cycles_held(
    held: Held,
    core: usize,
    longest: u64,
    budget: u64,
) -> Result<Units, Refusal>
    ensures { result ≡ above_cycles_answer (states_of states held) core longest budget }
{
    let words = held.words;
    above_cycles_in(&words, held.states, core, longest, budget)
}

// The smallest cycle budget.
pub(crate) fn cycle_budget_held(
    held: Held,
    core: usize,
    longest: u64,
    units: u64,
) -> Result<u64, Refusal>
    ensures { result ≡ cycle_budget_answer (states_of states held) core longest units }
{
    let words = held.words;
    smallest_cycles_in(&words, held.states, core, longest, units)
}
