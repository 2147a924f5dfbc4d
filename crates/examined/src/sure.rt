// What the best case's table promises, held to the counted choice sequences of a path: five words a state (1 where it is exact, mask, misses, hits, units).
use crate::promises::Path;
use crate::report::Report;
use crate::table::if_above;
use rules::Refusal;
use sequences::numbers::{WHOLE, at_most, less, plus};

// The count that is looked at.
#[derive(Clone, Copy)]
enum Count {
    Misses,
    Hits,
}

impl Count {
    fn of(self, misses: u64, hits: u64) -> u64 {
        match self {
            Count::Misses => misses,
            Count::Hits => hits,
        }
    }
}

// The units with more of the count than `number`.
fn units_over(best: &[u64], count: Count, number: u64) -> u64 {
    let mut units: u64 = 0;
    for state in best.chunks_exact(5) {
        let counted = count.of(state[2], state[3]);
        units = plus(units, if_above(counted, number, state[4]));
    }
    units
}

// How many choice sequences have more of the count than `number`: every access that does not miss hits. `totals` has how many have each miss count.
fn sequences_over(totals: &[u64; 16], accesses: u64, count: Count, number: u64) -> u64 {
    let mut over: u64 = 0;
    for (misses, n) in totals.iter().enumerate() {
        let counted = count.of(misses as u64, less(accesses, misses as u64));
        over = plus(over, if_above(counted, number, *n));
    }
    over
}

// Sure: the units with more of the count than `number` are at most the share of the sequences that have more.
fn is_sure(best: &[u64], totals: &[u64; 16], path: Path, count: Count, number: u64) -> bool {
    at_most(
        units_over(best, count, number),
        path.all,
        WHOLE,
        sequences_over(totals, path.accesses, count, number),
    )
}

// Every number from 0 to one past the path's accesses, of misses and of hits.
fn hold_numbers(best: &[u64], totals: &[u64; 16], path: Path, report: Report) -> Report {
    let end = plus(path.accesses, 2);
    let mut done = report;
    for number in 0..end {
        let misses = done.compared(is_sure(best, totals, path, Count::Misses, number));
        done = misses.compared(is_sure(best, totals, path, Count::Hits, number));
    }
    done
}

// The same, where there is a best case.
pub(crate) fn hold_best(best: &[u64], totals: &[u64; 16], path: Path, report: Report) -> Report {
    if best.len() == 0 {
        return report;
    }
    hold_numbers(best, totals, path, report)
}

// The number of an answer.
pub(crate) fn number_of(answer: Result<usize, Refusal>) -> u64 {
    match answer {
        Ok(_) => 0,
        Err(why) => why.number(),
    }
}

// How many states the best case's table has: none where it is refused.
pub(crate) fn states_of(answer: Result<usize, Refusal>) -> usize {
    match answer {
        Ok(states) => states,
        Err(_) => 0,
    }
}
