// Two states together, in a fold and in a join.
ghost use Rattle.std.specs.Prelude.{◌≡◌, min};
ghost use Rattle.best.specs.Tables.{meet as meet_of, pair_of};

use rules::{BestState, Hits, Misses, Units};
use states::best_states::same_contents;

// The smaller miss count.
pub(crate) fn fewer_misses(a: Misses, b: Misses) -> Misses
    ensures { result.0 ≡ min a.0 b.0 }
{
    if b.0 < a.0 {
        return b;
    }
    a
}

// The smaller hit count.
pub(crate) fn fewer_hits(a: Hits, b: Hits) -> Hits
    ensures { result.0 ≡ min a.0 b.0 }
{
    if b.0 < a.0 {
        return b;
    }
    a
}

// A fold makes an open state with the smaller of each count.
pub(crate) fn meet(s: BestState, t: BestState, units: Units) -> BestState
    ensures { result ≡ meet_of s t units.0 }
{
    BestState {
        exact: false,
        mask: 0,
        misses: fewer_misses(s.misses, t.misses),
        hits: fewer_hits(s.hits, t.hits),
        units,
    }
}

// In a join equal contents stay exact, others become open, with the smaller of each count.
pub(crate) fn pair(s: BestState, t: BestState, units: Units) -> BestState
    ensures { result ≡ pair_of s t units.0 }
{
    if same_contents(s, t) {
        return BestState {
            exact: true,
            mask: s.mask,
            misses: fewer_misses(s.misses, t.misses),
            hits: fewer_hits(s.hits, t.hits),
            units,
        };
    }
    meet(s, t, units)
}
