// The calls on a row (see `sequences`, input.rt), each in a working room of its own; what they leave of a table is in the result room.
use best::analyse_best;
use estimate::analyse;
use longest::longest_path;
use rules::{Finished, Refusal};
use sequences::input::{accesses_of, cache_of, edges_of, runs_of, tracked_of};
use sequences::numbers::TOO_LARGE;

// The graph call.
pub fn worst(res: &mut [u64], row: &[u32], limit: u32) -> Result<Finished, Refusal> {
    let mut work: [u64; 25920] = [0; 25920];
    analyse(
        cache_of(row),
        limit,
        tracked_of(row),
        runs_of(row),
        accesses_of(row),
        edges_of(row),
        res,
        &mut work,
    )
}

// The best case's call, which is asked of an empty cache, however this one is found.
pub(crate) fn surest(res: &mut [u64], row: &[u32], limit: u32) -> Result<usize, Refusal> {
    let mut work: [u64; 25920] = [0; 25920];
    let cache = cache_of(row);
    analyse_best(
        cache.sets,
        cache.ways,
        cache.revision,
        limit,
        tracked_of(row),
        runs_of(row),
        accesses_of(row),
        edges_of(row),
        res,
        &mut work,
    )
}

// The accesses of an answer; where it is a refusal, a number that no path has.
fn accesses_said(answer: Result<u64, Refusal>) -> u64 {
    match answer {
        Ok(accesses) => accesses,
        Err(_) => TOO_LARGE,
    }
}

// The accesses of the longest path.
pub(crate) fn longest(row: &[u32], limit: u32) -> u64 {
    accesses_said(longest_path(
        cache_of(row),
        limit,
        tracked_of(row),
        runs_of(row),
        accesses_of(row),
        edges_of(row),
    ))
}
