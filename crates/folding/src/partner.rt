// A state and its partner in a fold: how good a partner is, and what becomes of the two.
ghost use Rattle.std.specs.Prelude.{◌≡◌, ◌||◌, ◌&&◌, ◌+◌, ◌-◌, min, eqb, ltb, leb};
ghost use Rattle.rules.specs.Contents.{size};
ghost use Rattle.rules.specs.Units.{more};
ghost use Rattle.rules.specs.Fold.{sharing as sharing_of, apart as apart_of, meet as meet_of, changed as changed_of};
ghost use Rattle.folding.specs.Partners.{holds_all, is_alike};

use basics::larger;
use rules::{State, Units};
use states::filled::same_filled;
use states::{is_same, meet};
use tables::{size_of, smaller};

// How many blocks `s` shares with `t`.
pub fn sharing(s: State, t: State) -> u64
    ensures { result ≡ sharing_of s t }
{
    size_of(s.mask & t.mask)
}

// How far apart in misses they are.
pub fn apart(s: State, t: State) -> u64
    ensures { result ≡ apart_of s t }
{
    if s.misses < t.misses {
        return t.misses - s.misses;
    }
    s.misses - t.misses
}

// Whether `t` is a better partner of `s` than one that shares `most` blocks with it and is `near` away in misses.
pub fn closer(s: State, t: State, most: u64, near: u64) -> bool
    ensures { result ≡ (ltb most (sharing_of s t) || (eqb most (sharing_of s t) && ltb (apart_of s t) near)) }
{
    let shares = sharing(s, t);
    if most < shares {
        return true;
    }
    if shares < most {
        return false;
    }
    apart(s, t) < near
}

// Whether none can be a better partner than one that shares `most` blocks and is `near` away in misses, where none shares more than `bound`.
pub fn is_unbeaten(most: u64, near: u64, bound: u64) -> bool
    ensures { result ≡ (leb bound most && eqb near 0) }
{
    if bound <= most {
        return near == 0;
    }
    false
}

// Whether `t` holds all blocks of `s`.
pub fn holds_all(s: State, t: State) -> bool
    ensures { result ≡ holds_all s t }
{
    s.mask & t.mask == s.mask
}

// Whether `t` holds all blocks of `s` and has as many misses: one test, of what it lacks and of what its misses differ in.
pub fn is_alike(s: State, t: State) -> bool
    ensures { result ≡ is_alike s t }
{
    let lacking = (s.mask & t.mask) ^ s.mask;
    let differing = s.misses ^ t.misses;
    lacking | differing == 0
}

// One block fewer than `s` has; none where it has none.
pub fn one_fewer(s: State) -> u64
    ensures { result ≡ size s.mask - 1 }
{
    let all = size_of(s.mask);
    if all == 0 {
        return 0;
    }
    all - 1
}

// The fewest of four units.
pub fn fewest_of_four(a: Units, b: Units, c: Units, d: Units) -> Units
    ensures { result.0 ≡ min (min a.0 b.0) (min c.0 d.0) }
{
    let first = smaller(a, b);
    let second = smaller(c, d);
    smaller(first, second)
}

// The units of `s`, where its mask, misses or filled numbers are not those of `m`.
pub fn changed(s: State, m: State) -> Units
    ensures { result.0 ≡ changed_of s m }
{
    if is_same(s, m) {
        return Units(0);
    }
    s.units
}

// The set-aside count with the units of `s` and of `t`, each where it is changed in becoming `m`.
pub fn set_aside(aside: Units, s: State, t: State, m: State) -> Units
    ensures { result.0 ≡ more aside.0 (changed_of s m + changed_of t m) }
{
    let first = aside.add(changed(s, m));
    first.add(changed(t, m))
}

// What the two become, with `units`. Most often their filled numbers are the same.
pub fn made_one(s: State, t: State, units: Units) -> State
    ensures { result ≡ meet_of s t units.0 }
{
    let filled = s.filled;
    if same_filled(filled, t.filled) {
        return State {
            mask: s.mask & t.mask,
            misses: larger(s.misses, t.misses),
            filled,
            units,
        };
    }
    meet(s, t, units)
}
