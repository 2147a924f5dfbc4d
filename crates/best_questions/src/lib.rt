// Questions put to a finished table of the best case: document 02, request 10/13. Each is asked of the first `states` states of a table in words, or of
// all that there are: what the best case's call left in its result room.
#![tactic(auto)]

ghost use Rattle.std.specs.Prelude.{◌≡◌, take};
ghost use Rattle.rules.specs.BestQuestions.{miss_spread_answer, hit_spread_answer};
ghost use Rattle.words.specs.BestTables.{table_of};

use crate::table::BestTable;
use any_table::spread_in;
use rules::{Hits, Misses, Refusal};

mod counts;
mod one_state;
mod table;

// The units at each miss count from 0 to the largest present, which is the answer; `room` has zeros beyond it.
pub fn miss_spread_in(words: &[u64], states: usize, room: &mut [u64]) -> Result<Misses, Refusal>
    ensures { record { answer = result; room = room.new } ≡ miss_spread_answer (take states (table_of words.now)) room.old }
{
    Ok(Misses(spread_in::<BestTable, Misses>(words, states, room)?))
}

// The units at each hit count from 0 to the largest present, which is the answer; `room` has zeros beyond it.
pub fn hit_spread_in(words: &[u64], states: usize, room: &mut [u64]) -> Result<Hits, Refusal>
    ensures { record { answer = result; room = room.new } ≡ hit_spread_answer (take states (table_of words.now)) room.old }
{
    Ok(Hits(spread_in::<BestTable, Hits>(words, states, room)?))
}
