// What is counted in the states of the best case's table: misses, and hits.
ghost use Rattle.rules.specs.Best.{misses_of, hits_of};

use crate::table::BestTable;
use any_table::Count;
use rules::{BestState, Hits, Misses};

impl Count<BestTable> for Misses {
    ghost count = { misses_of };

    fn of(s: BestState) -> u64 {
        let m = s.misses;
        m.0
    }
}

impl Count<BestTable> for Hits {
    ghost count = { hits_of };

    fn of(s: BestState) -> u64 {
        let h = s.hits;
        h.0
    }
}
