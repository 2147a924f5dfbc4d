// From the numbers to the text: the graph call, the questions, and the lines that they give.
ghost use Rattle.std.specs.Prelude.{◌≡◌, true, ◌++◌, ◌≤◌, length, take, replicate, Ok};
ghost use Rattle.rules.specs.Questions.{is_table, largest};
ghost use Rattle.rules.specs.Refusals.{verdict};
ghost use Rattle.rules.specs.Cycles.{cores};
ghost use Rattle.rules.specs.Longest.{longest};
ghost use Rattle.words.specs.Tables.{table_of};
ghost use Rattle.curve_numbers.specs.Parts.{complete, input_from};
ghost use Rattle.writing.specs.Put.{Put};
ghost use Rattle.writing.specs.Told.{of_text, text_worked};
ghost use Rattle.lines.specs.Lines.{head_line, curve_lines, lines_below};
ghost use Rattle.printed.specs.Printed.{of_numbers, numbers_worked};
ghost use Rattle.lines.specs.Cores.{longest_line, core_lines};
ghost use Rattle.printed.specs.Choices.{of_chosen, chosen_worked, of_form, form_worked};
ghost use Rattle.printed.specs.Rooms.{Wrote};
ghost use Rattle.text.specs.Working.{Counted, Finishes};
ghost use Rattle.printed.specs.Wanted.{wanted_text};

use curve_numbers::{Choice, choice_in};
use lines::{put_cores, put_counts, put_head, put_longest};
use parts::{analyse_numbers, longest_of_numbers};
use printed::{Form, Wanted};
use questions::spread_in;
use reading::read_numbers;
use rules::{Finished, Start, Units};
use writing::put_refused;

// The accesses of the longest path, where the graph call is accepted.
fn longest_of(choice: Choice, numbers: &[u32]) -> u64
    requires { (complete numbers.now ≡ true) × (verdict (input_from choice numbers.now) ≡ Ok tt) }
    ensures { result ≡ longest (input_from choice numbers.now) }
{
    match longest_of_numbers(choice, numbers) {
        Ok(n) => n,
        Err(why) => 0,
    }
}

// The units at each miss count of the table of `states` states in the result room, at the front of `counts`; how many they are.
pub(crate) fn count_all(res: &[u64], states: usize, counts: &mut [u64]) -> usize
    requires { (is_table (take states (table_of res.now)) ≡ true) × (4097 ≤ length counts.old) }
    ensures { Counted (take states (table_of res.now)) result counts.new }
{
    match spread_in(res, states, counts) {
        Ok(last) => last as usize + 1,
        Err(why) => 0,
    }
}

// The curve of the table of `states` states in the result room, of which `aside` units are set aside.
pub(crate) fn put_curve(
    res: &[u64],
    states: usize,
    aside: Units,
    counts: &mut [u64],
    output: &mut [u8],
) -> usize
    requires { (is_table (take states (table_of res.now)) ≡ true) × (4097 ≤ length counts.old) }
    ensures { Put (head_line states aside.0 ++ curve_lines (take states (table_of res.now))) 0 result output.old output.new }
{
    let head = put_head(output, states as u64, aside.0);
    let n = count_all(res, states, counts);
    put_counts(output, head, &counts[..n])
}

// The curves in cycles of the same table, where the longest path has `longest` accesses.
pub(crate) fn put_cycles(
    res: &[u64],
    states: usize,
    aside: Units,
    longest: u64,
    counts: &mut [u64],
    output: &mut [u8],
) -> usize
    requires { (is_table (take states (table_of res.now)) ≡ true) × (largest (take states (table_of res.now)) ≤ longest) × (longest ≤ 4096) × (4097 ≤ length counts.old) }
    ensures { Put (longest_line states aside.0 longest ++ lines_below (core_lines longest (take states (table_of res.now))) (length cores)) 0 result output.old output.new }
{
    let head = put_longest(output, states as u64, aside.0, longest);
    let n = count_all(res, states, counts);
    put_cores(output, head, &counts[..n], longest as u32)
}

// The text that is wanted, for the same numbers, where the call has left a table of `states` states in the result room.
pub(crate) fn put_wanted(
    wanted: Wanted,
    choice: Choice,
    numbers: &[u32],
    states: usize,
    aside: Units,
    res: &[u64],
    counts: &mut [u64],
    output: &mut [u8],
) -> usize
    requires { Finishes choice numbers.now res.now states aside × (4097 ≤ length counts.old) }
    ensures { Put (of_numbers (wanted_text wanted) choice numbers.now) 0 result output.old output.new }
{
    match wanted {
        Wanted::Misses => put_curve(res, states, aside, counts, output),
        Wanted::Cycles => {
            let longest = longest_of(choice, numbers);
            put_cycles(res, states, aside, longest, counts, output)
        }
    }
}

// The same, and then the result room and the counts are cleared.
pub(crate) fn put_finished(
    wanted: Wanted,
    choice: Choice,
    numbers: &[u32],
    states: usize,
    aside: Units,
    res: &mut [u64],
    counts: &mut [u64],
    output: &mut [u8],
) -> usize
    requires { Finishes choice numbers.now res.old states aside × (4097 ≤ length counts.old) }
    ensures { Put (of_numbers (wanted_text wanted) choice numbers.now) 0 result output.old output.new × (res.new ≡ replicate (length res.old) 0) × (counts.new ≡ replicate (length counts.old) 0) }
{
    let end = put_wanted(wanted, choice, numbers, states, aside, res, counts, output);
    res.fill(0);
    counts.fill(0);
    end
}

// The text that is wanted of the numbers, or the line of a refusal, which leaves the rooms that are worked in as they were.
pub(crate) fn put_numbers(
    wanted: Wanted,
    choice: Choice,
    numbers: &[u32],
    res: &mut [u64],
    work: &mut [u64],
    counts: &mut [u64],
    output: &mut [u8],
) -> usize
    requires { (320 ≤ length res.old) × (25920 ≤ length work.old) × (4097 ≤ length counts.old) }
    ensures { Wrote (numbers_worked choice numbers.now) (of_numbers (wanted_text wanted) choice numbers.now) result (record { result = res.old; work = work.old; counts = counts.old; output = output.old }) (record { result = res.new; work = work.new; counts = counts.new; output = output.new }) }
{
    match analyse_numbers(choice, numbers, res, work) {
        Err(why) => put_refused(output, why.number()),
        Ok(Finished { states, aside }) => put_finished(
            wanted, choice, numbers, states, aside, res, counts, output,
        ),
    }
}

// The text that is wanted of numbers that begin with a choice, or the line of a refusal: 9 too where one of the three is missing, or the start is neither 0 nor 1.
pub(crate) fn put_chosen(
    wanted: Wanted,
    numbers: &[u32],
    res: &mut [u64],
    work: &mut [u64],
    counts: &mut [u64],
    output: &mut [u8],
) -> usize
    requires { (320 ≤ length res.old) × (25920 ≤ length work.old) × (4097 ≤ length counts.old) }
    ensures { Wrote (chosen_worked numbers.now) (of_chosen (wanted_text wanted) numbers.now) result (record { result = res.old; work = work.old; counts = counts.old; output = output.old }) (record { result = res.new; work = work.new; counts = counts.new; output = output.new }) }
{
    match choice_in(numbers) {
        None => put_refused(output, 9),
        Some(choice) => put_numbers(wanted, choice, &numbers[3..], res, work, counts, output),
    }
}

// The same of numbers of either form; document 01's cache has one set, is of the first revision and found empty.
pub(crate) fn put_form(
    form: Form,
    wanted: Wanted,
    numbers: &[u32],
    res: &mut [u64],
    work: &mut [u64],
    counts: &mut [u64],
    output: &mut [u8],
) -> usize
    requires { (320 ≤ length res.old) × (25920 ≤ length work.old) × (4097 ≤ length counts.old) }
    ensures { Wrote (form_worked form numbers.now) (of_form form (wanted_text wanted) numbers.now) result (record { result = res.old; work = work.old; counts = counts.old; output = output.old }) (record { result = res.new; work = work.new; counts = counts.new; output = output.new }) }
{
    match form {
        Form::Plain => {
            let choice = Choice {
                sets: 1,
                revision: 1,
                start: Start::Cold,
            };
            put_numbers(wanted, choice, numbers, res, work, counts, output)
        }
        Form::Chosen => put_chosen(wanted, numbers, res, work, counts, output),
    }
}

// The text that is wanted of the text, or the line of a refusal.
pub(crate) fn put_text(
    form: Form,
    wanted: Wanted,
    text: &[u8],
    numbers: &mut [u32],
    res: &mut [u64],
    work: &mut [u64],
    counts: &mut [u64],
    output: &mut [u8],
) -> usize
    requires { (16384 ≤ length numbers.old) × (320 ≤ length res.old) × (25920 ≤ length work.old) × (4097 ≤ length counts.old) }
    ensures { Wrote (text_worked (form_worked form) text.now) (of_text (of_form form (wanted_text wanted)) text.now) result (record { result = res.old; work = work.old; counts = counts.old; output = output.old }) (record { result = res.new; work = work.new; counts = counts.new; output = output.new }) }
{
    match read_numbers(text, numbers) {
        None => put_refused(output, 9),
        Some(n) => put_form(form, wanted, &numbers[..n], res, work, counts, output),
    }
}
