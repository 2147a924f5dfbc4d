// Tables in lent words: five words a state, in order.
#![tactic(auto)]

ghost use Rattle.std.specs.Prelude.{◌≡◌, true, ◌+◌, ◌≤◌, length, drop, replicate};
ghost use Rattle.std.proofs.Math.Seq.{paste};
ghost use Rattle.rules.specs.Table.{state_at};
ghost use Rattle.rules.specs.AnyTable.{at};
ghost use Rattle.rules.specs.Best.{listing};
ghost use Rattle.words.specs.Handing.{goes_over, handed_over, emptied};
ghost use Rattle.words.specs.Span.{span_of};
ghost use Rattle.words.specs.Tables.{table_of};
ghost use Rattle.words.specs.BestTables.{flag_of, table_of as best_of};

use rules::{BestState, Filled, Hits, Misses, State, Units};

// The state at place `at` of the table; past the end there is none, with 0 units.
pub fn state_at(words: &[u64], at: usize) -> State
    ensures { result ≡ state_at (table_of words.now) at }
{
    if words.len() / 5 <= at {
        return State {
            mask: 0,
            misses: 0,
            filled: Filled { front: 0, back: 0 },
            units: Units(0),
        };
    }
    let base = at * 5;
    State {
        mask: words[base],
        misses: words[base + 1],
        filled: Filled {
            front: words[base + 2],
            back: words[base + 3],
        },
        units: Units(words[base + 4]),
    }
}

// The first `n` words of the result are those of the working room from word `from` on.
fn carry(res: &mut [u64], work: &[u64], from: usize, n: usize)
    requires { (n ≤ length res.old) × (from + n ≤ length work.now) }
    ensures { res.new ≡ paste res.old 0 (drop from work.now) n }
{
    // word by word: of copy_from_slice the compiler makes a call of memmove, which include/estimate.h says that the library for C does not need
    for i in 0..n {
        res[i] = work[from + i];
    }
}

// Whether a room of `room` words has `n` words from word `from` on, and a result of `res` words has room for them.
fn goes_over(res: usize, room: usize, from: usize, n: usize) -> bool
    ensures { result ≡ goes_over res room from n }
{
    if res < n {
        return false;
    }
    if room < n {
        return false;
    }
    from <= room - n
}

// The `n` words of the working room from word `from` on go to the result, with zeros behind them, and the working room is all zeros; where they do not
// fit, both stay as they are.
pub fn hand_over(res: &mut [u64], work: &mut [u64], from: usize, n: usize)
    ensures res_after { res.new ≡ handed_over res.old work.old from n }
    ensures work_after { work.new ≡ emptied res.old work.old from n }
{
    if !goes_over(res.len(), work.len(), from, n) {
        return;
    }
    res.fill(0);
    carry(res, work, from, n);
    work.fill(0);
}

// The state at place `place` of a best case's table; past the end there is none, with 0 units.
pub fn best_at(words: &[u64], place: usize) -> BestState
    ensures { result ≡ at listing (best_of words.now) place }
{
    if words.len() / 5 <= place {
        return BestState {
            exact: false,
            mask: 0,
            misses: Misses(0),
            hits: Hits(0),
            units: Units(0),
        };
    }
    let base = place * 5;
    BestState {
        exact: words[base] == 1,
        mask: words[base + 1],
        misses: Misses(words[base + 2]),
        hits: Hits(words[base + 3]),
        units: Units(words[base + 4]),
    }
}

// The word that says whether a state of that table is exact.
pub fn flag(exact: bool) -> u64
    ensures { result ≡ flag_of exact }
{
    if exact {
        return 1;
    }
    0
}

// Where the first `states` states end, of `n` words.
pub fn span(n: usize, states: usize) -> usize
    ensures { result ≡ span_of n states }
{
    if n / 5 <= states {
        return n;
    }
    states * 5
}
