// What is done with one state or two, by value: this needs no table, and so nothing of its callers. Two states that stand in the same place or are made one are here, the filled numbers in
// `filled`, what an access makes of a state in `step`; `best` has what looks at two states of the best case's table.
#![tactic(auto)]

ghost use Rattle.std.specs.Prelude.{◌≡◌, ◌&&◌};
ghost use Rattle.rules.specs.Fold.{meet as meet_of};
ghost use Rattle.rules.specs.Table.{order, plus as plus_of};
ghost use Rattle.tables.specs.Placing.{is_same};

use crate::filled::{fullest, same_filled};
use basics::larger;
use rules::{State, Units};

pub mod best_states;
pub mod filled;
pub mod step;

// Whether both are so.
pub fn both(a: bool, b: bool) -> bool
    ensures { result ≡ (a && b) }
{
    if a {
        return b;
    }
    false
}

// `units` of the shared blocks, the larger miss count and the larger filled number of each set.
pub fn meet(s: State, t: State, units: Units) -> State
    ensures { result ≡ meet_of s t units.0 }
{
    State {
        mask: s.mask & t.mask,
        misses: larger(s.misses, t.misses),
        filled: fullest(s.filled, t.filled),
        units,
    }
}

// Whether `s` and `t` stand in the same place.
pub fn is_same(s: State, t: State) -> bool
    ensures { result ≡ is_same (order s t) }
{
    if s.mask != t.mask {
        return false;
    }
    if s.misses != t.misses {
        return false;
    }
    same_filled(s.filled, t.filled)
}

// `t` with the units of `s`.
pub fn plus(t: State, s: State) -> State
    ensures { result ≡ plus_of t s }
{
    let filled = t.filled;
    let u = t.units;
    let v = s.units;
    State {
        mask: t.mask,
        misses: t.misses,
        filled,
        units: u.add(v),
    }
}
