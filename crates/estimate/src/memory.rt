// Tables in lent words: five words a state. One state is read and written here only; whole stretches are moved as words.
ghost use Rattle.std.specs.Prelude.{◌≡◌, ◌⊎◌, ◌+◌, ◌*◌, ◌≤◌, length, set, drop};
ghost use Rattle.std.proofs.Math.Seq.{paste};
ghost use Rattle.rules.specs.Table.{state_at};
ghost use Rattle.words.specs.Tables.{table_of};

use rules::State;
use words::state_at;

// The state at place `at` of the table.
pub(crate) fn load(words: &[u64], at: usize) -> State
    requires { at * 5 + 5 ≤ length words.now }
    ensures { result ≡ state_at (table_of words.now) at }
{
    let base = at * 5;
    state_at(&words[base..base + 5], 0)
}

// The table with `s` at place `at`.
pub(crate) fn store(words: &mut [u64], at: usize, s: State)
    requires { at * 5 + 5 ≤ length words.old }
    ensures { table_of words.new ≡ set (table_of words.old) at s }
{
    let base = at * 5;
    let f = s.filled;
    let u = s.units;
    words[base] = s.mask;
    words[base + 1] = s.misses;
    words[base + 2] = f.front;
    words[base + 3] = f.back;
    words[base + 4] = u.0;
}

// The `n` states at place `from` stand at place `to` too; the two stretches do not meet.
pub(crate) fn copy(words: &mut [u64], from: usize, to: usize, n: usize)
    requires { ((from + n) * 5 ≤ length words.old) × ((to + n) * 5 ≤ length words.old) × ((to + n ≤ from) ⊎ (from + n ≤ to)) }
    ensures { table_of words.new ≡ paste (table_of words.old) to (drop from (table_of words.old)) n }
{
    words.copy_within(from * 5..(from + n) * 5, to * 5);
}
