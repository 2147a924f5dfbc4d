// When the work says no: document 01, section 5; document 02, requests 1/13, 6/13 and 10/13. What is asked of the lists is asked by `graph_check`.
#![tactic(auto)]

ghost use Rattle.std.specs.Prelude.{◌≡◌, Err, Ok};
ghost use Rattle.rules.specs.Input.{input_in};
ghost use Rattle.rules.specs.Refusals.{verdict, best_verdict};
ghost use Rattle.refusals.specs.Further.{is_early, is_late, further_of};

use graph_check::{all_tracked, graph_broken, is_set_count, once, outside};
use rules::{Cache, Refusal};

// The first reason of the table that applies, in its order.
#[tactic(auto, unfolding(rules::specs::Refusals::verdict, rules::specs::Refusals::reasons))]
pub fn judge(
    cache: Cache,
    limit: u32,
    tracked: &[u32],
    runs: &[u32],
    accesses: &[u32],
    edges: &[u32],
    result_room: usize,
    working_room: usize,
) -> Result<(), Refusal>
    ensures { result ≡ verdict (input_in cache limit tracked.now runs.now accesses.now edges.now result_room working_room) }
{
    let bad_ways = outside(1, 16, cache.ways as u64);
    let bad_sets = !is_set_count(cache.sets);
    let bad_revision = outside(1, 2, cache.revision as u64);
    let bad_limit = outside(1, 64, limit as u64);
    if bad_ways {
        return Err(Refusal::Ways);
    }
    if bad_sets {
        return Err(Refusal::Sets);
    }
    if bad_revision {
        return Err(Refusal::Revision);
    }
    if bad_limit {
        return Err(Refusal::Limit);
    }
    if 16 < tracked.len() {
        return Err(Refusal::Tracked);
    }
    if !once(tracked) {
        return Err(Refusal::Tracked);
    }
    if 4096 < accesses.len() {
        return Err(Refusal::Accesses);
    }
    if graph_broken(runs, accesses.len(), edges) {
        return Err(Refusal::Graph);
    }
    if result_room < limit as usize {
        return Err(Refusal::Room);
    }
    if working_room < 5184 {
        return Err(Refusal::Room);
    }
    Ok(())
}

// Whether a refusal is given before 18, the second revision.
fn is_early(r: Refusal) -> bool
    ensures { result ≡ is_early r }
{
    matches!(r, Refusal::Ways | Refusal::Sets | Refusal::Revision)
}

// Whether a refusal is given after 17, an accessed block that is not tracked.
fn is_late(r: Refusal) -> bool
    ensures { result ≡ is_late r }
{
    matches!(r, Refusal::Room)
}

// What the best case gives where the graph call is refused; `tracked` says that every access is to a tracked block.
fn refused_further(r: Refusal, second: bool, tracked: bool) -> Result<(), Refusal>
    ensures { result ≡ further_of (Err r) second tracked }
{
    if is_early(r) {
        return Err(r);
    }
    if second {
        return Err(Refusal::SecondRevision);
    }
    if tracked {
        return Err(r);
    }
    if is_late(r) {
        return Err(Refusal::UntrackedAccess);
    }
    Err(r)
}

// And where it is accepted.
fn accepted_further(second: bool, tracked: bool) -> Result<(), Refusal>
    ensures { result ≡ further_of (Ok tt) second tracked }
{
    if second {
        return Err(Refusal::SecondRevision);
    }
    if tracked {
        return Ok(());
    }
    Err(Refusal::UntrackedAccess)
}

// The first reason that applies to the best case's call, in their order.
#[tactic(auto, using(crate::proofs::Further::best_further))]
pub fn judge_best(
    cache: Cache,
    limit: u32,
    tracked: &[u32],
    runs: &[u32],
    accesses: &[u32],
    edges: &[u32],
    result_room: usize,
    working_room: usize,
) -> Result<(), Refusal>
    ensures { result ≡ best_verdict (input_in cache limit tracked.now runs.now accesses.now edges.now result_room working_room) }
{
    let second = cache.revision == 2;
    let tracked_all = all_tracked(tracked, accesses);
    match judge(
        cache,
        limit,
        tracked,
        runs,
        accesses,
        edges,
        result_room,
        working_room,
    ) {
        Err(r) => refused_further(r, second, tracked_all),
        Ok(()) => accepted_further(second, tracked_all),
    }
}
