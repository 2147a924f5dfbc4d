// When folds end, and when the search for a partner does; `partner` has how good a partner is, and what becomes of the two.
#![tactic(auto)]

ghost use Rattle.std.specs.Prelude.{◌≡◌};
ghost use Rattle.folding.specs.Ends.{is_above_limit, none_nearer};

pub mod partner;

// Whether a table of `states` states is folded: there are more than `limit`.
pub fn is_above_limit(states: usize, limit: usize) -> bool
    ensures { result ≡ is_above_limit states limit }
{
    limit < states
}

// Whether none can be nearer in misses than `near`, of the states that hold all blocks of another and are not alike to it: those are one miss away at least.
pub fn none_nearer(near: u64) -> bool
    ensures { result ≡ none_nearer near }
{
    near <= 1
}
