// The finished table, handed over.
ghost use Rattle.std.specs.Prelude.{◌≡◌, ◌++◌, ◌+◌, ◌*◌, ◌≤◌, ◌<◌, length, take, drop, replicate};
ghost use Rattle.words.specs.BestTables.{table_of, words_of};
ghost use Rattle.best.specs.Rooms.{table_in};
ghost use Rattle.best.specs.Call.{written};

use crate::memory::{load, write};
use crate::slots::count;

// The first `n` states of the result are those of the working room from place `from` on.
pub(crate) fn carry(res: &mut [u64], work: &[u64], from: usize, n: usize)
    requires { (n * 5 ≤ length res.old) × ((from + n) * 5 ≤ length work.now) }
    ensures { res.new ≡ words_of (take n (drop from (table_of work.now))) ++ drop (n * 5) res.old }
{
    for i in 0..n {
        let s = load(work, from + i);
        write(res, i, s);
    }
}

// The table in slot `last` goes to the result, with zeros behind it; the working room is all zeros; how many states there are.
pub(crate) fn hand_over(res: &mut [u64], work: &mut [u64], last: usize) -> usize
    requires { (last < 64) × (25920 ≤ length work.old) × (length (table_in last (table_of work.old)) * 5 ≤ length res.old) }
    ensures value { result ≡ length (table_in last (table_of work.old)) }
    ensures res_after { res.new ≡ written (table_in last (table_of work.old)) (length res.old) }
    ensures work_after { work.new ≡ replicate (length work.old) 0 }
{
    let n = count(work, last * 64);
    res.fill(0);
    carry(res, work, last * 64, n);
    work.fill(0);
    n
}
