// Curves as text: from the bytes or numbers of a graph to the bytes of its curve, in misses or in cycles, in rooms that the caller lends.
#![tactic(auto)]

ghost use Rattle.std.specs.Prelude.{◌≡◌};
ghost use Rattle.printed.specs.Rooms.{after_numbers, after_text, after_cycles_of_numbers, after_cycles_of_text, after_chosen_text, after_cycles_of_chosen_text};
ghost use Rattle.printed.specs.Wanted.{wanted_after, wanted_after_text};

use crate::working::{put_form, put_text};
use printed::{Form, Wanted, has_room};

mod working;

// The curve's text for numbers in the curve's order, at the front of `output`. What was worked in is zero then; a refusal, which is a text too, leaves it as it was.
// Long enough are a result room of 320 words, a working room of 25,920, counts of 4,097, and an output of 262,144 bytes.
pub fn curve_of_numbers(
    numbers: &[u32],
    res: &mut [u64],
    work: &mut [u64],
    counts: &mut [u64],
    output: &mut [u8],
) -> Option<usize>
    ensures { record { answer = result; rooms = record { result = res.new; work = work.new; counts = counts.new; output = output.new } } ≡ after_numbers numbers.now (record { result = res.old; work = work.old; counts = counts.old; output = output.old }) }
{
    write_numbers(Wanted::Misses, numbers, res, work, counts, output)
}

// The text of the curves in cycles for numbers in the curve's order. Long enough are rooms as for the curve, and an output of 3,145,728 bytes.
pub fn cycles_of_numbers(
    numbers: &[u32],
    res: &mut [u64],
    work: &mut [u64],
    counts: &mut [u64],
    output: &mut [u8],
) -> Option<usize>
    ensures { record { answer = result; rooms = record { result = res.new; work = work.new; counts = counts.new; output = output.new } } ≡ after_cycles_of_numbers numbers.now (record { result = res.old; work = work.old; counts = counts.old; output = output.old }) }
{
    write_numbers(Wanted::Cycles, numbers, res, work, counts, output)
}

// The curve's text for a text. The room for its numbers is zero then, after a refusal too. Long enough are rooms as for `curve_of_numbers`, and 16,384 numbers.
pub fn curve_of_text(
    text: &[u8],
    numbers: &mut [u32],
    res: &mut [u64],
    work: &mut [u64],
    counts: &mut [u64],
    output: &mut [u8],
) -> Option<usize>
    ensures { record { answer = result; numbers = numbers.new; rooms = record { result = res.new; work = work.new; counts = counts.new; output = output.new } } ≡ after_text text.now numbers.old (record { result = res.old; work = work.old; counts = counts.old; output = output.old }) }
{
    write_text(
        Form::Plain,
        Wanted::Misses,
        text,
        numbers,
        res,
        work,
        counts,
        output,
    )
}

// The text of the curves in cycles for a text. Long enough are rooms as for `cycles_of_numbers`, and 16,384 numbers.
pub fn cycles_of_text(
    text: &[u8],
    numbers: &mut [u32],
    res: &mut [u64],
    work: &mut [u64],
    counts: &mut [u64],
    output: &mut [u8],
) -> Option<usize>
    ensures { record { answer = result; numbers = numbers.new; rooms = record { result = res.new; work = work.new; counts = counts.new; output = output.new } } ≡ after_cycles_of_text text.now numbers.old (record { result = res.old; work = work.old; counts = counts.old; output = output.old }) }
{
    write_text(
        Form::Plain,
        Wanted::Cycles,
        text,
        numbers,
        res,
        work,
        counts,
        output,
    )
}

// The curve's text for a text whose numbers begin with a choice: the set count, the revision, and the start, 0 for an empty cache and 1 for a used one; then come the
// curve's. Rooms as for `curve_of_text`.
pub fn curve_of_chosen_text(
    text: &[u8],
    numbers: &mut [u32],
    res: &mut [u64],
    work: &mut [u64],
    counts: &mut [u64],
    output: &mut [u8],
) -> Option<usize>
    ensures { record { answer = result; numbers = numbers.new; rooms = record { result = res.new; work = work.new; counts = counts.new; output = output.new } } ≡ after_chosen_text text.now numbers.old (record { result = res.old; work = work.old; counts = counts.old; output = output.old }) }
{
    write_text(
        Form::Chosen,
        Wanted::Misses,
        text,
        numbers,
        res,
        work,
        counts,
        output,
    )
}

// The text of the curves in cycles for such a text. Rooms as for `cycles_of_text`.
pub fn cycles_of_chosen_text(
    text: &[u8],
    numbers: &mut [u32],
    res: &mut [u64],
    work: &mut [u64],
    counts: &mut [u64],
    output: &mut [u8],
) -> Option<usize>
    ensures { record { answer = result; numbers = numbers.new; rooms = record { result = res.new; work = work.new; counts = counts.new; output = output.new } } ≡ after_cycles_of_chosen_text text.now numbers.old (record { result = res.old; work = work.old; counts = counts.old; output = output.old }) }
{
    write_text(
        Form::Chosen,
        Wanted::Cycles,
        text,
        numbers,
        res,
        work,
        counts,
        output,
    )
}

// The text that is wanted, for numbers in the curve's order.
fn write_numbers(
    wanted: Wanted,
    numbers: &[u32],
    res: &mut [u64],
    work: &mut [u64],
    counts: &mut [u64],
    output: &mut [u8],
) -> Option<usize>
    ensures { record { answer = result; rooms = record { result = res.new; work = work.new; counts = counts.new; output = output.new } } ≡ wanted_after wanted numbers.now (record { result = res.old; work = work.old; counts = counts.old; output = output.old }) }
{
    if !has_room(wanted, res.len(), work.len(), counts.len(), output.len()) {
        return None;
    }
    Some(put_form(Form::Plain, wanted, numbers, res, work, counts, output))
}

// The text that is wanted, for a text.
fn write_text(
    form: Form,
    wanted: Wanted,
    text: &[u8],
    numbers: &mut [u32],
    res: &mut [u64],
    work: &mut [u64],
    counts: &mut [u64],
    output: &mut [u8],
) -> Option<usize>
    ensures { record { answer = result; numbers = numbers.new; rooms = record { result = res.new; work = work.new; counts = counts.new; output = output.new } } ≡ wanted_after_text form wanted text.now numbers.old (record { result = res.old; work = work.old; counts = counts.old; output = output.old }) }
{
    if numbers.len() < 16384 {
        return None;
    }
    if !has_room(wanted, res.len(), work.len(), counts.len(), output.len()) {
        return None;
    }
    let end = put_text(form, wanted, text, numbers, res, work, counts, output);
    numbers.fill(0);
    Some(end)
}
