// What a node starts from: what is set aside before the first of all, and where the edges after that of its first predecessor begin; `last` has the block accessed directly before.
#![tactic(auto)]

ghost use Rattle.std.specs.Prelude.{◌≡◌};
ghost use Rattle.nodes.specs.Starts.{aside_at_start, after_edge};

use rules::Units;

pub mod last;

// What is set aside before the first node.
pub fn aside_at_start() -> Units
    ensures { result.0 ≡ aside_at_start }
{
    Units(0)
}

// Where the edges after the one at place `e` begin, in a list of `n` numbers; at most its end.
pub fn after_edge(e: usize, n: usize) -> usize
    ensures { result ≡ after_edge e n }
{
    if n < 2 {
        return n;
    }
    if n - 2 <= e {
        return n;
    }
    e + 2
}
