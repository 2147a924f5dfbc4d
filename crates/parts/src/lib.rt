// The graph call and the longest path of what a list of numbers in the curve's order means.
#![tactic(auto)]

ghost use Rattle.std.specs.Prelude.{◌≡◌, ◌≤◌, ◌<◌, length};
ghost use Rattle.curve_numbers.specs.Places.{Ends};
ghost use Rattle.parts.specs.Best.{best_numbers_left};
ghost use Rattle.parts.specs.Call.{numbers_left, numbers_longest};

use best::analyse_best;
use curve_numbers::{Choice, end_of};
use estimate::analyse;
use longest::longest_path;
use rules::{Cache, Finished, Refusal};

// The graph call for numbers that are complete: the tracked blocks end at `first`, the run lengths at `second`, the accesses at `third`.
fn call(
    choice: Choice,
    numbers: &[u32],
    first: usize,
    second: usize,
    third: usize,
    res: &mut [u64],
    work: &mut [u64],
) -> Result<Finished, Refusal>
    requires { Ends numbers.now first second third × (3 ≤ first) × (first < second) × (second < third) × (third < length numbers.now) }
    ensures { record { answer = result; result = res.new; work = work.new } ≡ numbers_left choice numbers.now res.old work.old }
{
    let start = choice.start;
    analyse(
        Cache {
            sets: choice.sets,
            ways: numbers[0],
            revision: choice.revision,
            start,
        },
        numbers[1],
        &numbers[3..first],
        &numbers[first + 1..second],
        &numbers[second + 1..third],
        &numbers[third + 1..],
        res,
        work,
    )
}

// The longest path for the same numbers.
fn longest_in(
    choice: Choice,
    numbers: &[u32],
    first: usize,
    second: usize,
    third: usize,
) -> Result<u64, Refusal>
    requires { Ends numbers.now first second third × (3 ≤ first) × (first < second) × (second < third) × (third < length numbers.now) }
    ensures { result ≡ numbers_longest choice numbers.now }
{
    let start = choice.start;
    longest_path(
        Cache {
            sets: choice.sets,
            ways: numbers[0],
            revision: choice.revision,
            start,
        },
        numbers[1],
        &numbers[3..first],
        &numbers[first + 1..second],
        &numbers[second + 1..third],
        &numbers[third + 1..],
    )
}

// The graph call for a list of numbers: 9 where one is missing or left over, which changes nothing, and otherwise as `analyse`.
pub fn analyse_numbers(
    choice: Choice,
    numbers: &[u32],
    res: &mut [u64],
    work: &mut [u64],
) -> Result<Finished, Refusal>
    ensures { record { answer = result; result = res.new; work = work.new } ≡ numbers_left choice numbers.now res.old work.old }
{
    let first = end_of(numbers, 2, 1);
    let second = end_of(numbers, first, 1);
    let third = end_of(numbers, second, 1);
    if end_of(numbers, third, 2) != numbers.len() {
        return Err(Refusal::Text);
    }
    call(choice, numbers, first, second, third, res, work)
}

// The longest path for a list of numbers: 9 where one is missing or left over, and otherwise as `longest_path`.
pub fn longest_of_numbers(choice: Choice, numbers: &[u32]) -> Result<u64, Refusal>
    ensures { result ≡ numbers_longest choice numbers.now }
{
    let first = end_of(numbers, 2, 1);
    let second = end_of(numbers, first, 1);
    let third = end_of(numbers, second, 1);
    let last = end_of(numbers, third, 2);
    if last != numbers.len() {
        return Err(Refusal::Text);
    }
    longest_in(choice, numbers, first, second, third)
}

// The best case's graph call for numbers that are complete, as `call` has them.
fn call_best(
    sets: u32,
    revision: u32,
    numbers: &[u32],
    first: usize,
    second: usize,
    third: usize,
    res: &mut [u64],
    work: &mut [u64],
) -> Result<usize, Refusal>
    requires { Ends numbers.now first second third × (3 ≤ first) × (first < second) × (second < third) × (third < length numbers.now) }
    ensures { record { answer = result; result = res.new; work = work.new } ≡ best_numbers_left sets revision numbers.now res.old work.old }
{
    analyse_best(
        sets,
        numbers[0],
        revision,
        numbers[1],
        &numbers[3..first],
        &numbers[first + 1..second],
        &numbers[second + 1..third],
        &numbers[third + 1..],
        res,
        work,
    )
}

// The best case's graph call for a list of numbers: 9 where one is missing or left over, which changes nothing, and otherwise as `analyse_best`.
pub fn analyse_best_numbers(
    sets: u32,
    revision: u32,
    numbers: &[u32],
    res: &mut [u64],
    work: &mut [u64],
) -> Result<usize, Refusal>
    ensures { record { answer = result; result = res.new; work = work.new } ≡ best_numbers_left sets revision numbers.now res.old work.old }
{
    let first = end_of(numbers, 2, 1);
    let second = end_of(numbers, first, 1);
    let third = end_of(numbers, second, 1);
    if end_of(numbers, third, 2) != numbers.len() {
        return Err(Refusal::Text);
    }
    call_best(sets, revision, numbers, first, second, third, res, work)
}
