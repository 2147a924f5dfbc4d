// The estimate: from one access to a whole graph, in memory that the caller lends.
#![tactic(auto)]

ghost use Rattle.std.specs.Prelude.{◌≡◌, Ok};
ghost use Rattle.rules.specs.Refusals.{verdict};
ghost use Rattle.estimate.specs.Call.{handed, analysed, analysed_paired};

use crate::finish::{close, hand_over};
use crate::graph::work_nodes;
use calls::refuse_pairing;
use pairings::{in_form, joins_to};
use refusals::judge;
use rules::{Cache, Finished, Refusal};

mod access;
mod coming;
mod finish;
mod fold;
mod graph;
mod handed;
mod join;
mod memory;
mod merge;
mod placing;
mod rests;
mod run;
mod run_list;
mod shares;
mod slots;
mod tally;

// The graph call: the finished table goes to `res`, five words a state, and `work` is used on the way.
pub fn analyse(
    cache: Cache,
    limit: u32,
    tracked: &[u32],
    runs: &[u32],
    accesses: &[u32],
    edges: &[u32],
    res: &mut [u64],
    work: &mut [u64],
) -> Result<Finished, Refusal>
    ensures { record { answer = result; result = res.new; work = work.new } ≡ analysed cache limit tracked.now runs.now accesses.now edges.now res.old work.old }
{
    judge(
        cache,
        limit,
        tracked,
        runs,
        accesses,
        edges,
        res.len() / 5,
        work.len() / 5,
    )?;
    let done = work_nodes(
        work,
        runs,
        accesses,
        edges,
        tracked,
        cache,
        limit as usize,
        &[],
        &[],
    );
    let states = hand_over(res, work, runs.len() - 1);
    let aside = done.aside;
    Ok(Finished { states, aside })
}

// The work on a graph that is accepted but for what is handed in for its joins; where that is not accepted, the answer is 19 and `work` is zero.
fn work_paired(
    cache: Cache,
    limit: u32,
    tracked: &[u32],
    runs: &[u32],
    accesses: &[u32],
    edges: &[u32],
    counts: &[u64],
    rows: &[u64],
    res: &mut [u64],
    work: &mut [u64],
) -> Result<Finished, Refusal>
    requires { Ok tt ≡ verdict (handed cache limit tracked.now runs.now accesses.now edges.now res.old work.old) }
    ensures { record { answer = result; result = res.new; work = work.new } ≡ analysed_paired cache limit tracked.now runs.now accesses.now edges.now counts.now rows.now res.old work.old }
{
    if !in_form(joins_to(edges, runs.len()), counts, rows) {
        return refuse_pairing(work);
    }
    let done = work_nodes(
        work,
        runs,
        accesses,
        edges,
        tracked,
        cache,
        limit as usize,
        counts,
        rows,
    );
    close(res, work, runs.len() - 1, done)
}

// The graph call with a pairing or none for each join: `counts` has for each join how many rows its pairing has, or `pairings::NONE`, and `rows` has the
// rows, three numbers each.
pub fn analyse_paired(
    cache: Cache,
    limit: u32,
    tracked: &[u32],
    runs: &[u32],
    accesses: &[u32],
    edges: &[u32],
    counts: &[u64],
    rows: &[u64],
    res: &mut [u64],
    work: &mut [u64],
) -> Result<Finished, Refusal>
    ensures { record { answer = result; result = res.new; work = work.new } ≡ analysed_paired cache limit tracked.now runs.now accesses.now edges.now counts.now rows.now res.old work.old }
{
    judge(
        cache,
        limit,
        tracked,
        runs,
        accesses,
        edges,
        res.len() / 5,
        work.len() / 5,
    )?;
    work_paired(
        cache, limit, tracked, runs, accesses, edges, counts, rows, res, work,
    )
}
