// One state: what the questions ask of its numbers.
ghost use Rattle.std.specs.Prelude.{◌≡◌, cond, ltb};
ghost use Rattle.rules.specs.Table.{units_of};

use rules::State;

// The units of `s` if it has more misses than `budget`.
pub(crate) fn part_above(s: State, budget: u64) -> u64
    ensures { result ≡ cond (ltb budget s.misses) (units_of s) 0 }
{
    let u = s.units;
    if budget < s.misses {
        return u.0;
    }
    0
}
