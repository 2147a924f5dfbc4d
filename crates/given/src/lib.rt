// What is given to C of an answer in Rattle: its number, 0 or the refusal's, and the values, each written where a pointer says. What would have taken a value keeps what
// stood there where the answer is a refusal.
#![tactic(auto)]

ghost use Rattle.std.specs.Prelude.{◌≡◌};
ghost use Rattle.given.specs.Answers.{cache_given, outcome_given, count_given, bytes_of, reading_given, sizes_given};

use listing::GraphSize;
use recorder::Reading;
use rules::{Cache, Finished, Refusal, Start};

// The cache that the numbers name.
pub fn cache_named(sets: u32, ways: u32, revision: u32, warm: bool) -> Cache
    ensures { result ≡ cache_given sets ways revision warm }
{
    let start = Start::from(warm);
    Cache {
        sets,
        ways,
        revision,
        start,
    }
}

// The answer of a graph call as a number, 0 or the refusal's; how many states there are, and what is set aside.
pub fn give_outcome(answer: Result<Finished, Refusal>, states: &mut usize, aside: &mut u64) -> u64
    ensures { record { number = result; states = states.new; aside = aside.new } ≡ outcome_given answer states.old aside.old }
{
    match answer {
        Ok(finished) => {
            *states = finished.states;
            *aside = finished.aside.0;
            0
        }
        Err(reason) => reason.number(),
    }
}

// The answer of a question as a number, 0 or the refusal's, and its value, a count: of misses, cycles, accesses or units.
pub fn give_count(answer: Result<u64, Refusal>, count: &mut u64) -> u64
    ensures { record { number = result; value = count.new } ≡ count_given answer count.old }
{
    match answer {
        Ok(value) => {
            *count = value;
            0
        }
        Err(reason) => reason.number(),
    }
}

// The answer of reading a trace: 0 and how many accesses, 13 and the place of the first damaged block, or the refusal's number.
pub fn give_reading(answer: Result<Reading, Refusal>, count: &mut usize, place: &mut usize) -> u64
    ensures { record { number = result; count = count.new; place = place.new } ≡ reading_given answer count.old place.old }
{
    match answer {
        Ok(Reading::Accesses(found)) => {
            *count = found;
            0
        }
        Ok(Reading::Damaged(first)) => {
            *place = first;
            13
        }
        Err(reason) => reason.number(),
    }
}

// The answer of expanding a listing: 0 and how many nodes, accesses and edges, or the refusal's number.
pub fn give_sizes(
    answer: Result<GraphSize, Refusal>,
    nodes: &mut usize,
    access_count: &mut usize,
    edge_count: &mut usize,
) -> u64
    ensures { record { number = result; nodes = nodes.new; access_count = access_count.new; edge_count = edge_count.new } ≡ sizes_given answer nodes.old access_count.old edge_count.old }
{
    match answer {
        Ok(size) => {
            *nodes = size.nodes;
            *access_count = size.accesses;
            *edge_count = size.edges;
            0
        }
        Err(reason) => reason.number(),
    }
}

// How many bytes were written: 0 where a room is too short.
pub fn bytes_of(written: Option<usize>) -> usize
    ensures { result ≡ bytes_of written }
{
    written.unwrap_or(0)
}
