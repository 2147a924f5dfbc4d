// Whether the states in some words are a table: document 01, section 4, with the filled numbers of document 02, request 6/13.
#![tactic(auto)]

ghost use Rattle.std.specs.Prelude.{◌≡◌};
ghost use Rattle.rules.specs.Table.{listing};
ghost use Rattle.rules.specs.Questions.{fitting, is_table, misses_of};
ghost use Rattle.words.specs.Tables.{table_of};
ghost use Rattle.words.proofs.Tables.{length_table_of, table_take};

use any_table::{Count, Kind};
use rules::{Misses, State};

mod one_state;

// Document 01's table.
pub struct Table;

impl Kind for Table {
    type State = State;

    ghost states = { table_of };

    ghost listing = { listing };

    ghost fitting = { fitting };

    ghost fifths = { length_table_of };

    ghost parts = { table_take };

    fn state_at(words: &[u64], place: usize) -> State {
        words::state_at(words, place)
    }

    fn units(s: State) -> u64 {
        let u = s.units;
        u.0
    }

    fn stands_before(s: State, t: State) -> bool {
        orders::stands_before(s, t)
    }

    fn is_fitting(s: State) -> bool {
        one_state::is_fitting(s)
    }
}

// What is counted in its states.
impl Count<Table> for Misses {
    ghost count = { misses_of };

    fn of(s: State) -> u64 {
        s.misses
    }
}

// Whether they are a table: 1 to 64 states, rising, each fitting, with a true total of WHOLE.
#[tactic(auto, using(crate::proofs::Fitting::same_table))]
pub fn is_table(words: &[u64]) -> bool
    ensures { result ≡ is_table (table_of words.now) }
{
    any_table::is_table::<Table>(words)
}
