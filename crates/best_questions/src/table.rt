// The best case's table as a kind: its states in some words, how they are listed, and which of them a table may have.
ghost use Rattle.rules.specs.Best.{listing};
ghost use Rattle.rules.specs.BestQuestions.{best_fitting};
ghost use Rattle.words.specs.BestTables.{table_of};
ghost use Rattle.words.proofs.BestTables.{length_table_of, table_take};

use any_table::Kind;
use rules::BestState;

// The best case's table.
pub(crate) struct BestTable;

impl Kind for BestTable {
    type State = BestState;

    ghost states = { table_of };

    ghost listing = { listing };

    ghost fitting = { best_fitting };

    ghost fifths = { length_table_of };

    ghost parts = { table_take };

    fn state_at(words: &[u64], place: usize) -> BestState {
        words::best_at(words, place)
    }

    fn units(s: BestState) -> u64 {
        let u = s.units;
        u.0
    }

    fn stands_before(s: BestState, t: BestState) -> bool {
        orders::best_before(s, t)
    }

    fn is_fitting(s: BestState) -> bool {
        crate::one_state::is_fitting(s)
    }
}
