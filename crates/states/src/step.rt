// One access and one state: what a miss can evict, what becomes of a state, what of it is set aside. A set is one of sixteen, and sums are those of words of 64 bits, so that nothing
// is asked of the arguments.
ghost use Rattle.std.specs.Prelude.{◌≡◌};
ghost use Rattle.rules.specs.Contents.{shared};
ghost use Rattle.rules.specs.Step.{at_risk, rest_of, left_over};
ghost use Rattle.states.specs.Step.{in_reach, fuller_in, missed_in, fills as fills_of, goes_on};

use crate::filled::{fill_one, number_of};
use rules::{State, Target, Units};
use std::num::wrapping_add_u64;
use tables::{has_block, with_block};

// The blocks of `s` that a miss can evict: those of its own set, once every way of the set may be filled.
pub fn at_risk(s: State, x: Target, ways: u64) -> u64
    ensures { result ≡ at_risk ways (in_reach x) s.filled s.mask }
{
    if number_of(s.filled, x.set) < ways {
        return 0;
    }
    s.mask & x.mates
}

// `s` with one more way of the accessed set that may be filled.
pub fn fuller(s: State, x: Target, ways: u64) -> State
    ensures { result ≡ fuller_in ways (in_reach x) s }
{
    let units = s.units;
    State {
        mask: s.mask,
        misses: s.misses,
        filled: fill_one(ways, x.set, s.filled),
        units,
    }
}

// What the units that are left over keep of `mask`: nothing where a block of `risk` can be lost, or all.
pub fn rest_of(mask: u64, risk: u64) -> u64
    ensures { result ≡ rest_of mask risk }
{
    if risk == 0 {
        return mask;
    }
    0
}

// From `s`, whose filled numbers are those after it, one miss more: `mask` with the accessed block, and `units`.
pub fn missed(s: State, x: Target, mask: u64, units: Units) -> State
    ensures { result ≡ missed_in (in_reach x) s mask units.0 }
{
    let place = x.place;
    let filled = s.filled;
    State {
        mask: with_block(mask, place),
        misses: wrapping_add_u64(s.misses, 1),
        filled,
        units,
    }
}

// What of `s` is set aside.
pub fn left_over(s: State, x: Target, ways: u64) -> Units
    ensures { result.0 ≡ left_over ways (in_reach x) s }
{
    let place = x.place;
    if has_block(s.mask, x.again, place) {
        return Units(0);
    }
    if at_risk(s, x, ways) == 0 {
        return Units(0);
    }
    let u = s.units;
    u.split(ways).rest
}

// Whether `s` fills an empty way, if it misses.
pub fn fills(s: State, x: Target, ways: u64) -> bool
    ensures { result ≡ fills_of ways (in_reach x) s }
{
    number_of(s.filled, x.set) < ways
}

// Whether `s` goes on with a run: it has its mask, and fills an empty way as it does.
pub fn goes_on(s: State, x: Target, ways: u64, mask: u64, filling: bool) -> bool
    ensures { result ≡ goes_on ways (in_reach x) mask filling s }
{
    if s.mask != mask {
        return false;
    }
    if fills(s, x, ways) {
        return filling;
    }
    if filling {
        return false;
    }
    true
}

// The blocks of `mask` that belong to the accessed set.
pub fn held_of(mask: u64, x: Target) -> u64
    ensures { result ≡ shared mask x.mates }
{
    mask & x.mates
}
