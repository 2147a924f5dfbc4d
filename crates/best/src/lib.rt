// The best case: from one access to a whole graph, in memory that the caller lends. The code is that of `estimate` for the other kind of state, with hits
// beside misses and no set-aside count.
#![tactic(auto)]

ghost use Rattle.std.specs.Prelude.{◌≡◌};
ghost use Rattle.best.specs.Call.{best_analysed};

use crate::finish::hand_over;
use crate::graph::work_nodes;
use refusals::judge_best;
use rules::{Cache, Refusal, Start};

mod access;
mod finish;
mod fold;
mod graph;
mod join;
mod meeting;
mod memory;
mod placing;
mod run;
mod slots;

// The best case's call: the finished table goes to `res`, five words a state, and `work` is used on the way.
pub fn analyse_best(
    sets: u32,
    ways: u32,
    revision: u32,
    limit: u32,
    tracked: &[u32],
    runs: &[u32],
    accesses: &[u32],
    edges: &[u32],
    res: &mut [u64],
    work: &mut [u64],
) -> Result<usize, Refusal>
    ensures { record { answer = result; result = res.new; work = work.new } ≡ best_analysed sets ways revision limit tracked.now runs.now accesses.now edges.now res.old work.old }
{
    let cache = Cache {
        sets,
        ways,
        revision,
        start: Start::Cold,
    };
    let result_room = res.len() / 5;
    let working_room = work.len() / 5;
    judge_best(
        cache,
        limit,
        tracked,
        runs,
        accesses,
        edges,
        result_room,
        working_room,
    )?;
    work_nodes(work, runs, accesses, edges, tracked, cache, limit as usize);
    let states = hand_over(res, work, runs.len() - 1);
    Ok(states)
}
