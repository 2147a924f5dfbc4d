// Tables in lent words, whatever their states are: five words a state, in order. What a kind of table makes of its words, and how its states are listed, it says in its
// impl of `Kind`; what makes a table is said here once, for every kind.
#![tactic(auto)]

ghost use Rattle.std.specs.Prelude.{◌≡◌, Bool, List, ℕ, ◌*◌, ◌/◌, eqb, length, take};
ghost use Rattle.rules.specs.Units.{whole};
ghost use Rattle.rules.specs.Ordered.{rises, is_before};
ghost use Rattle.rules.specs.AnyTable.{Listing, at, total};
ghost use Rattle.any_table.specs.Accepted.{all_fitting, is_table_of};

pub use crate::counts::{Count, largest, spread_in};
use rules::Units;

mod counts;

// A kind of table: the states in some words, how they are listed, and which of them a table may have.
pub trait Kind {
    type State: Copy;

    ghost states: { List ℕ → List Self.State };

    ghost listing: { Listing Self.State };

    ghost fitting: { Self.State → Bool };

    // The state at a place; past the end there is none, with 0 units.
    fn state_at(words: &[u64], place: usize) -> Self::State
        ensures { result ≡ at listing (states words.now) place };

    // The units of a state.
    fn units(s: Self::State) -> u64
        ensures { result ≡ listing.units s };

    // Whether a state stands before another.
    fn stands_before(s: Self::State, t: Self::State) -> bool
        ensures { result ≡ is_before (listing.order s t) };

    // Whether a table may have a state.
    fn is_fitting(s: Self::State) -> bool
        ensures { result ≡ fitting s };

    // Each state takes five words.
    ghost fifths: { (ws : List ℕ) → length (states ws) ≡ length ws / 5 };

    ghost parts: { (ws : List ℕ) (k : ℕ) → states (take (k * 5) ws) ≡ take k (states ws) };
}

// Whether each state stands before the next.
pub fn rising<K: Kind>(words: &[u64]) -> bool
    ensures { result ≡ rises K.listing.order (K.states words.now) }
{
    for i in 1..words.len() / 5 {
        if !K::stands_before(K::state_at(words, i - 1), K::state_at(words, i)) {
            return false;
        }
    }
    true
}

// Whether a table may have each of the states.
pub fn all_fit<K: Kind>(words: &[u64]) -> bool
    ensures { result ≡ all_fitting K.fitting (K.states words.now) }
{
    for i in 0..words.len() / 5 {
        if !K::is_fitting(K::state_at(words, i)) {
            return false;
        }
    }
    true
}

// Whether the units total WHOLE: what is left of it falls to 0, so that no sum can wrap.
pub fn is_whole<K: Kind>(words: &[u64]) -> bool
    ensures { result ≡ eqb (total K.listing (K.states words.now)) whole }
{
    let whole = Units::WHOLE;
    let mut left = whole.0;
    for i in 0..words.len() / 5 {
        let u = K::units(K::state_at(words, i));
        if left < u {
            return false;
        }
        left -= u;
    }
    left == 0
}

// Whether they are a table: 1 to 64 states, rising, each fitting, with a true total of WHOLE.
#[tactic(auto, unfolding(crate::specs::Accepted::is_table_of))]
pub fn is_table<K: Kind>(words: &[u64]) -> bool
    ensures { result ≡ is_table_of K.listing K.fitting (K.states words.now) }
{
    let n = words.len() / 5;
    if n < 1 {
        return false;
    }
    if 64 < n {
        return false;
    }
    if !rising::<K>(words) {
        return false;
    }
    if !all_fit::<K>(words) {
        return false;
    }
    is_whole::<K>(words)
}
