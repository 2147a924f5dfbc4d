// The best case's tables in lent words: five words a state. One state is read and written here only; whole stretches are moved as words.
ghost use Rattle.std.specs.Prelude.{◌≡◌, ◌⊎◌, ◌+◌, ◌*◌, ◌≤◌, length, set, drop};
ghost use Rattle.std.proofs.Math.Seq.{paste};
ghost use Rattle.best.specs.Tables.{state_at};
ghost use Rattle.words.specs.BestTables.{table_of, stored};

use rules::{BestState, Hits, Misses, Units};
use words::flag;

// The state at place `at` of the table.
pub(crate) fn load(words: &[u64], at: usize) -> BestState
    requires { at * 5 + 5 ≤ length words.now }
    ensures { result ≡ state_at (table_of words.now) at }
{
    let base = at * 5;
    BestState {
        exact: words[base] == 1,
        mask: words[base + 1],
        misses: Misses(words[base + 2]),
        hits: Hits(words[base + 3]),
        units: Units(words[base + 4]),
    }
}

// The words with those of `s` at place `at`.
pub(crate) fn write(words: &mut [u64], at: usize, s: BestState)
    requires { at * 5 + 5 ≤ length words.old }
    ensures { words.new ≡ stored words.old at s }
{
    let base = at * 5;
    let m = s.misses;
    let h = s.hits;
    let u = s.units;
    words[base] = flag(s.exact);
    words[base + 1] = s.mask;
    words[base + 2] = m.0;
    words[base + 3] = h.0;
    words[base + 4] = u.0;
}

// The table with `s` at place `at`.
pub(crate) fn store(words: &mut [u64], at: usize, s: BestState)
    requires { at * 5 + 5 ≤ length words.old }
    ensures { table_of words.new ≡ set (table_of words.old) at s }
{
    write(words, at, s);
}

// The `n` states at place `from` stand at place `to` too; the two stretches do not meet.
pub(crate) fn copy(words: &mut [u64], from: usize, to: usize, n: usize)
    requires { ((from + n) * 5 ≤ length words.old) × ((to + n) * 5 ≤ length words.old) × ((to + n ≤ from) ⊎ (from + n ≤ to)) }
    ensures { table_of words.new ≡ paste (table_of words.old) to (drop from (table_of words.old)) n }
{
    words.copy_within(from * 5..(from + n) * 5, to * 5);
}
