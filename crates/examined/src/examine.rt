// One graph, one state limit: the graph call is made, and its table held to every path's choice sequences.
use crate::cycles::hold_cycles;
use crate::promises::{Path, Told, hold_above, hold_exact};
use crate::report::Report;
use crate::row_calls::{longest, surest, worst};
use crate::sure::{hold_best, number_of, states_of};
use crate::table::total;
use rules::{Finished, Refusal, Start, Units};
use sequences::counts::{count_each, count_misses, sequences_in};
use sequences::input::{accesses_of, all_tracked, cache_of, edges_of, nodes_of};
use sequences::numbers::{WHOLE, power, read, wide};
use sequences::paths::{collect, is_path, sets_of};

// By misses alone, on every core; and the best case's table, of misses and of hits.
fn examine_totals(
    table: &[u64],
    best: &[u64],
    told: Told,
    counts: &[u64; 256],
    path: Path,
    report: Report,
) -> Report {
    let mut totals: [u64; 16] = [0; 16];
    count_misses(&mut totals, counts);
    let sure = hold_best(best, &totals, path, report);
    hold_cycles(table, told, &totals, path, sure)
}

// The counted choice sequences of a path. On a straight run whose blocks are all tracked the units above a budget are tight, and exact
// where nothing is set aside.
fn examine_counts(
    table: &[u64],
    best: &[u64],
    told: Told,
    counts: &[u64; 256],
    path: Path,
    report: Report,
) -> Report {
    let walked = report.walked(path.accesses, path.all);
    let counted = walked.compared(sequences_in(counts) == path.all);
    let above = hold_above(table, told.aside, counts, path, counted);
    let cycles = examine_totals(table, best, told, counts, path, above);
    if path.tight {
        if told.aside == 0 {
            return hold_exact(table, counts, path.all, cycles);
        }
    }
    cycles
}

// One path, a row of its own. The cache is found as `kind` says.
fn examine_from(
    kind: u32,
    table: &[u64],
    best: &[u64],
    told: Told,
    run: &[u32],
    tight: bool,
    report: Report,
) -> Report {
    let cache = cache_of(run);
    let ways = wide(cache.ways);
    let accesses = accesses_of(run);
    let path = Path {
        accesses: accesses.len() as u64,
        all: power(ways, accesses.len()),
        tight,
    };
    let mut counts: [u64; 256] = [0; 256];
    count_each(&mut counts, kind, run, path.all);
    examine_counts(table, best, told, &counts, path, report)
}

// The same path from an empty cache and from used ones: no more than safe is promised then, and nothing in the best case.
fn examine_used(table: &[u64], told: Told, run: &[u32], report: Report) -> Report {
    let mut done = report;
    for kind in 0..4 {
        done = examine_from(kind, table, &[], told, run, false, done);
    }
    done
}

// The path as the start says: from an empty cache, or from all.
fn examine_path(
    table: &[u64],
    best: &[u64],
    told: Told,
    run: &[u32],
    tight: bool,
    report: Report,
) -> Report {
    let cache = cache_of(run);
    let start = cache.start;
    match start {
        Start::Cold => examine_from(0, table, best, told, run, tight, report),
        Start::Warm => examine_used(table, told, run, report),
    }
}

// Whether a graph is a straight run whose blocks are all tracked.
fn is_tight(row: &[u32]) -> bool {
    if nodes_of(row) == 1 {
        return all_tracked(row);
    }
    false
}

// Whether a set of nodes is a path to the last one.
fn is_whole_path(row: &[u32], chosen: u64) -> bool {
    let nodes = nodes_of(row);
    if nodes == 0 {
        return false;
    }
    if 7 < nodes {
        return false;
    }
    is_path(chosen, edges_of(row), (nodes - 1) as u32)
}

// A set of nodes, where it is a path.
fn examine_set(
    table: &[u64],
    best: &[u64],
    told: Told,
    row: &[u32],
    chosen: u64,
    report: Report,
) -> Report {
    if !is_whole_path(row, chosen) {
        return report;
    }
    let mut run: [u32; 52] = [0; 52];
    if 16 < collect(&mut run, row, chosen) {
        return report.compared(false);
    }
    examine_path(table, best, told, &run, is_tight(row), report)
}

// Every path.
fn examine_paths(table: &[u64], best: &[u64], told: Told, row: &[u32], report: Report) -> Report {
    let sets = sets_of(nodes_of(row));
    let mut done = report;
    for chosen in 0..sets {
        done = examine_set(table, best, told, row, chosen, done);
    }
    done
}

// The first `states` states of a room; none where it has fewer.
fn first_states<'a>(room: &'a [u64], states: usize) -> &'a [u64] {
    if room.len() / 5 < states {
        return &room[0..0];
    }
    let end = states * 5;
    &room[0..end]
}

// The finished table. Of all paths the longest one has as many accesses as was told.
fn examine_table(table: &[u64], best: &[u64], told: Told, row: &[u32], report: Report) -> Report {
    let whole = report.compared(total(table) == WHOLE);
    let paths = examine_paths(table, best, told, row, whole);
    paths.compared(paths.longest == told.longest)
}

// What the calls told of a graph.
fn told_of(aside: Units, longest: u64) -> Told {
    Told {
        aside: aside.0,
        longest,
    }
}

// What a graph call answered and left in `res`, beside the best case's table.
pub fn examine_answer(
    answer: Result<Finished, Refusal>,
    res: &[u64],
    best: &[u64],
    row: &[u32],
    limit: u32,
    report: Report,
) -> Report {
    match answer {
        Ok(Finished { states, aside }) => {
            let few = report.compared(states <= limit as usize);
            let told = told_of(aside, longest(row, limit));
            examine_table(first_states(res, states), best, told, row, few)
        }
        Err(_) => report.compared(false),
    }
}

// The graph call with one state limit, beside the best case's table.
fn examine_worst(best: &[u64], row: &[u32], limit: u32, report: Report) -> Report {
    let mut result: [u64; 320] = [0; 320];
    let answer = worst(&mut result, row, limit);
    examine_answer(answer, &result, best, row, limit, report)
}

// How the best case is answered: 18 for the second revision, 17 where an access is not tracked, and otherwise it is accepted.
fn number_expected(row: &[u32]) -> u64 {
    if read(row, 2) == 2 {
        return 18;
    }
    if all_tracked(row) {
        return 0;
    }
    17
}

// The units of a table total 2^48, or there is no table.
fn is_whole(table: &[u64]) -> bool {
    if table.len() == 0 {
        return true;
    }
    total(table) == WHOLE
}

// Both tables with one state limit; the best case's is empty where it is refused.
fn examine(row: &[u32], limit: u32, report: Report) -> Report {
    let mut result: [u64; 320] = [0; 320];
    let answer = surest(&mut result, row, limit);
    let states = states_of(answer);
    let best = first_states(&result, states);
    let whole = report
        .called()
        .compared(number_of(answer) == number_expected(row))
        .compared(states <= limit as usize)
        .compared(is_whole(best));
    examine_worst(best, row, limit, whole)
}

// The graph call with a wide state limit and with narrow ones.
pub fn examine_limits(row: &[u32], report: Report) -> Report {
    let wide = examine(row, 64, report);
    let one = examine(row, 1, wide);
    let two = examine(row, 2, one);
    let three = examine(row, 3, two);
    examine(row, 5, three)
}
