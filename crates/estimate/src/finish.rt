// The finished table, handed over.
ghost use Rattle.std.specs.Prelude.{◌≡◌, ◌*◌, ◌≤◌, ◌<◌, length, replicate};
ghost use Rattle.words.specs.Tables.{table_of};
ghost use Rattle.estimate.specs.Rooms.{table_in};
ghost use Rattle.estimate.specs.Call.{written, closed};

use crate::graph::Done;
use crate::slots::count;
use calls::refuse_pairing;
use rules::{Finished, Refusal};
use words::hand_over as hand_words;

// The table in slot `last` goes to the result, with zeros behind it; the working room is all zeros; how many states there are.
pub(crate) fn hand_over(res: &mut [u64], work: &mut [u64], last: usize) -> usize
    requires { (last < 64) × (25920 ≤ length work.old) × (length (table_in last (table_of work.old)) * 5 ≤ length res.old) }
    ensures value { result ≡ length (table_in last (table_of work.old)) }
    ensures res_after { res.new ≡ written (table_in last (table_of work.old)) (length res.old) }
    ensures work_after { work.new ≡ replicate (length work.old) 0 }
{
    let n = count(work, last * 64);
    hand_words(res, work, last * 64 * 5, n * 5);
    n
}

// The end of a call with pairings: the table in slot `last` is handed over where every pairing was accepted, and otherwise the answer is 19.
pub(crate) fn close(
    res: &mut [u64],
    work: &mut [u64],
    last: usize,
    done: Done,
) -> Result<Finished, Refusal>
    requires { (last < 64) × (25920 ≤ length work.old) × (length (table_in last (table_of work.old)) * 5 ≤ length res.old) }
    ensures { record { answer = result; result = res.new; work = work.new } ≡ closed done.fits (table_in last (table_of work.old)) done.aside res.old (length work.old) }
{
    if !done.fits {
        return refuse_pairing(work);
    }
    let states = hand_over(res, work, last);
    let aside = done.aside;
    Ok(Finished { states, aside })
}
