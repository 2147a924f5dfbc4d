// The fewest units of a table.
ghost use Rattle.std.specs.Prelude.{◌+◌, ◌*◌, ◌≤◌, length};
ghost use Rattle.words.specs.Tables.{table_of};
ghost use Rattle.searches.specs.Least.{Fewest, Lowest as LowestOf};

use crate::memory::load;
use folding::partner::fewest_of_four;
use rules::Units;

// The fewest units of the first `seen` states; those before place `from` have more.
#[derive(Clone, Copy)]
pub(crate) struct Lowest {
    pub units: Units,
    pub from: usize,
    pub seen: usize,
}

// The fewest units of the four states from place `at` on.
pub(crate) fn least_of_four(words: &[u64], at: usize) -> Units
    requires { at * 5 + 20 ≤ length words.now }
    ensures { Fewest (table_of words.now) at (at + 4) result.0 }
{
    fewest_of_four(
        load(words, at).units,
        load(words, at + 1).units,
        load(words, at + 2).units,
        load(words, at + 3).units,
    )
}

// The fewest units of the first of `n` states: all but three at most, by fours.
pub(crate) fn least_by_four(words: &[u64], n: usize) -> Lowest
    requires { (1 ≤ n) × (n * 5 ≤ length words.now) }
    ensures { (result.seen ≤ n) × LowestOf (table_of words.now) result.seen result.units.0 result.from }
{
    let mut units = load(words, 0).units;
    let mut from: usize = 0;
    let mut i: usize = 1;
    // Four states a step, as far as four are left; the caller goes on one by one.
    while i + 4 <= n {
        let u = least_of_four(words, i);
        if u.0 < units.0 {
            units = u;
            from = i;
        }
        i += 4;
    }
    Lowest {
        units,
        from,
        seen: i,
    }
}

// The fewest units of `n` states.
pub(crate) fn least(words: &[u64], n: usize) -> Lowest
    requires { (1 ≤ n) × (n * 5 ≤ length words.now) }
    ensures { LowestOf (table_of words.now) n result.units.0 result.from }
{
    let most = least_by_four(words, n);
    let mut units = most.units;
    let mut from = most.from;
    for i in most.seen..n {
        let u = load(words, i).units;
        if u.0 < units.0 {
            units = u;
            from = i;
        }
    }
    Lowest {
        units,
        from,
        seen: n,
    }
}
