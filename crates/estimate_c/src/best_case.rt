// The best case for C: its graph call, and the spreads of its table in words.
ghost use Rattle.std.specs.Prelude.{◌≡◌, take};
ghost use Rattle.rules.specs.BestQuestions.{miss_spread_answer, hit_spread_answer};
ghost use Rattle.words.specs.BestTables.{table_of};
ghost use Rattle.best.specs.Call.{best_analysed};
ghost use Rattle.estimate_c.specs.Best.{best_given, miss_spread_given, hit_spread_given};

use best::analyse_best;
use best_questions::{hit_spread_in, miss_spread_in};
use given::give_count;

// The best case's graph call.
#[unsafe(no_mangle)]
pub extern "C" fn estimate_best(
    sets: u32,
    ways: u32,
    revision: u32,
    limit: u32,
    tracked: &[u32],
    runs: &[u32],
    accesses: &[u32],
    edges: &[u32],
    res: &mut [u64],
    work: &mut [u64],
    states: &mut usize,
) -> u64
    ensures { record { number = result; states = states.new; result = res.new; work = work.new } ≡ best_given (best_analysed sets ways revision limit tracked.now runs.now accesses.now edges.now res.old work.old) states.old }
{
    match analyse_best(
        sets, ways, revision, limit, tracked, runs, accesses, edges, res, work,
    ) {
        Ok(count) => {
            *states = count;
            0
        }
        Err(reason) => reason.number(),
    }
}

// The units at each miss count of a best case's table.
#[unsafe(no_mangle)]
pub extern "C" fn estimate_best_miss_spread(
    table: &[u64],
    states: usize,
    counts: &mut [u64],
    largest: &mut u64,
) -> u64
    ensures { record { answer = record { number = result; value = largest.new }; room = counts.new } ≡ miss_spread_given (miss_spread_answer (take states (table_of table.now)) counts.old) largest.old }
{
    give_count(
        miss_spread_in(table, states, counts).map(|misses| misses.0),
        largest,
    )
}

// And at each hit count.
#[unsafe(no_mangle)]
pub extern "C" fn estimate_best_hit_spread(
    table: &[u64],
    states: usize,
    counts: &mut [u64],
    largest: &mut u64,
) -> u64
    ensures { record { answer = record { number = result; value = largest.new }; room = counts.new } ≡ hit_spread_given (hit_spread_answer (take states (table_of table.now)) counts.old) largest.old }
{
    give_count(
        hit_spread_in(table, states, counts).map(|hits| hits.0),
        largest,
    )
}
