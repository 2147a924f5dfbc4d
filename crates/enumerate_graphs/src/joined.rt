// A graph whose first join is by a random pairing (see pairs.rt), held to every path's choice sequences as it is without one.
use crate::paired_call::paired;
use crate::pairs::{first_join, pair_all, units_of_node};
use examined::examine::examine_answer;
use examined::report::Report;
use pairings::NONE;
use sequences::input::{edges_of, runs_of};
use sequences::numbers::{less, plus};

// The call with a pairing or none for each join.
fn examine_pairing(
    row: &[u32],
    limit: u32,
    counts: &[u64],
    pairs: &[u64],
    report: Report,
) -> Report {
    let mut result: [u64; 320] = [0; 320];
    let answer = paired(&mut result, row, limit, counts, pairs);
    examine_answer(answer, &result, &[], row, limit, report)
}

// The call with the first `many` pairs for the first join, and none for a second one.
fn examine_pairs(
    row: &[u32],
    limit: u32,
    pairs: &[u64],
    many: usize,
    joins: usize,
    report: Report,
) -> Report {
    let counts: [u64; 2] = [many as u64, NONE];
    if 144 < many {
        return report.compared(false);
    }
    if 2 < joins {
        return report.compared(false);
    }
    let end = many * 3;
    if pairs.len() < end {
        return report.compared(false);
    }
    examine_pairing(row, limit, &counts[0..joins], &pairs[0..end], report)
}

// How many joins a graph has: one for each edge but the first to a node.
fn joins_of(row: &[u32]) -> usize {
    let edges = edges_of(row);
    let nodes = runs_of(row);
    less(plus((edges.len() / 2) as u64, 1), nodes.len() as u64) as usize
}

// The pairing of nodes `one` and `other`, which join first.
fn examine_nodes(row: &[u32], limit: u32, one: u32, other: u32, report: Report) -> Report {
    let mut left: [u64; 64] = [0; 64];
    let mut right: [u64; 64] = [0; 64];
    let m = units_of_node(&mut left, row, limit, one);
    let n = units_of_node(&mut right, row, limit, other);
    let mut pairs: [u64; 432] = [0; 432];
    let many = pair_all(&mut pairs, &mut left, &mut right, m, n, report.comparisons);
    examine_pairs(row, limit, &pairs, many, joins_of(row), report.called())
}

// A random pairing for the first join, where the graph has one.
pub(crate) fn examine_joined(row: &[u32], limit: u32, report: Report) -> Report {
    let edges = edges_of(row);
    match first_join(edges) {
        Some((one, other)) => examine_nodes(row, limit, one, other, report),
        None => report,
    }
}
