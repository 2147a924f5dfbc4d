// The list, the rows and the report of the nightly build: how many graphs a list has, whether the build is refused, and a row in words. Document 02, request 13/13.
#![tactic(auto)]

ghost use Rattle.std.specs.Prelude.{◌≡◌};
ghost use Rattle.rules.specs.Answers.{first};
ghost use Rattle.night_rows.specs.Graphs.{count_of};
ghost use Rattle.night_rows.specs.Reasons.{build_reasons};
ghost use Rattle.night_rows.specs.Rows.{number_row, row_put};

use curve_numbers::end_of;
use rules::Refusal;

// A row: 0 or the number of a refusal, how many states the finished table has, the set-aside count, the accesses of the longest path, and the smallest budget for the
// allowance.
#[derive(Clone, Copy)]
pub struct Row {
    // A number and no `Result`: a row is five words for C, in this order.
    pub refusal: u64,
    pub states: u64,
    pub aside: u64,
    pub longest: u64,
    pub budget: u64,
}

// How many graphs were accepted, how many refused under each of 9, 1, 2, 3, 4 and 5, and the sum of the set-aside counts.
#[derive(Clone, Copy)]
pub struct Report {
    pub accepted: u64,
    pub text: u64,
    pub ways: u64,
    pub limit: u64,
    pub tracked: u64,
    pub accesses: u64,
    pub graph: u64,
    pub aside: u64,
}

// How many graphs the list has, each a count and so many numbers; 257 where it has more than 256, or they do not use it up exactly.
pub fn count_graphs(numbers: &[u32]) -> usize
    ensures { result ≡ count_of numbers.now }
{
    let mut at: usize = 0;
    let mut count: usize = 0;
    // From graph to graph: each ends where its own count says.
    while at < numbers.len() {
        if count == 256 {
            return 257;
        }
        at = end_of(numbers, at, 1);
        count += 1;
    }
    if at == numbers.len() {
        return count;
    }
    257
}

// The first reason to refuse a list, with rooms of so many words for the rows and for the work.
pub fn judge_list(numbers: &[u32], rows: usize, work: usize) -> Result<(), Refusal>
    ensures { result ≡ first (build_reasons numbers.now rows work) }
{
    let count = count_graphs(numbers);
    if 256 < count {
        return Err(Refusal::Nightly);
    }
    if rows / 5 < count {
        return Err(Refusal::Nightly);
    }
    if work / 5 < 5248 {
        return Err(Refusal::Room);
    }
    Ok(())
}

// The row of a graph that is refused with this number.
pub fn refused_row(number: u64) -> Row
    ensures { result ≡ number_row number }
{
    Row {
        refusal: number,
        states: 0,
        aside: 0,
        longest: 0,
        budget: 0,
    }
}

// The row in a room of five words; any other room is left as it is.
pub fn put_row(room: &mut [u64], row: Row)
    ensures { room.new ≡ row_put row room.old }
{
    if room.len() != 5 {
        return;
    }
    room[0] = row.refusal;
    room[1] = row.states;
    room[2] = row.aside;
    room[3] = row.longest;
    room[4] = row.budget;
}
