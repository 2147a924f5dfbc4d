// A lent row of the best case's states, by value: what is asked of it is asked of its words.
ghost use Rattle.std.specs.Prelude.{◌≡◌};
ghost use Rattle.rules.specs.BestQuestions.{miss_spread_answer, hit_spread_answer};
ghost use Rattle.rows.specs.Rows.{best_states, one_more, copied, states_of};

use crate::row::{Held, nothing};
use best_questions::{hit_spread_in, miss_spread_in};
use rules::{BestState, Hits, Misses, Refusal};
use words::flag;

// One state more; where there is no room for it, the row is no table whatever follows.
pub(crate) fn hold_best(held: Held, s: BestState) -> Held
    ensures { result ≡ one_more best_states held s }
{
    let n = held.states;
    if 64 < n {
        return held;
    }
    let m = s.misses;
    let h = s.hits;
    let u = s.units;
    let mut words = held.words;
    words[n * 5] = flag(s.exact);
    words[n * 5 + 1] = s.mask;
    words[n * 5 + 2] = m.0;
    words[n * 5 + 3] = h.0;
    words[n * 5 + 4] = u.0;
    Held {
        states: n + 1,
        words,
    }
}

// The walk: each state of the row in turn.
pub(crate) fn copy_best(row: &[BestState]) -> Held
    ensures { result ≡ copied best_states row.now }
{
    let mut held = nothing();
    for s in row {
        held = hold_best(held, *s);
    }
    held
}

// What is held is asked the spread of misses.
pub(crate) fn miss_spread_held(held: Held, room: &mut [u64]) -> Result<Misses, Refusal>
    ensures { record { answer = result; room = room.new } ≡ miss_spread_answer (states_of best_states held) room.old }
{
    let words = held.words;
    miss_spread_in(&words, held.states, room)
}

// The spread of hits.
pub(crate) fn hit_spread_held(held: Held, room: &mut [u64]) -> Result<Hits, Refusal>
    ensures { record { answer = result; room = room.new } ≡ hit_spread_answer (states_of best_states held) room.old }
{
    let words = held.words;
    hit_spread_in(&words, held.states, room)
}
