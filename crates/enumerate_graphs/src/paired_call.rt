// The graph call with pairings on a row, in a working room of its own.
use estimate::analyse_paired;
use rules::{Finished, Refusal};
use sequences::input::{accesses_of, cache_of, edges_of, runs_of, tracked_of};

pub(crate) fn paired(
    res: &mut [u64],
    row: &[u32],
    limit: u32,
    counts: &[u64],
    pairs: &[u64],
) -> Result<Finished, Refusal> {
    let mut work: [u64; 25920] = [0; 25920];
    analyse_paired(
        cache_of(row),
        limit,
        tracked_of(row),
        runs_of(row),
        accesses_of(row),
        edges_of(row),
        counts,
        pairs,
        res,
        &mut work,
    )
}
