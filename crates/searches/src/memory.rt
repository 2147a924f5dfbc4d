// One state of a table in lent words.
ghost use Rattle.std.specs.Prelude.{◌≡◌, ◌+◌, ◌*◌, ◌≤◌, length};
ghost use Rattle.rules.specs.Table.{state_at};
ghost use Rattle.words.specs.Tables.{table_of};

use rules::State;
use words::state_at;

// The state at place `at` of the table.
pub(crate) fn load(words: &[u64], at: usize) -> State
    requires { at * 5 + 5 ≤ length words.now }
    ensures { result ≡ state_at (table_of words.now) at }
{
    let base = at * 5;
    state_at(&words[base..base + 5], 0)
}
