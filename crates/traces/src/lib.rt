// What is said of a trace, as text, in rooms that the caller lends: its accesses, the places of its damaged blocks, or a refusal.
#![tactic(auto)]

ghost use Rattle.std.specs.Prelude.{◌≡◌, leb};
ghost use Rattle.recorder.specs.Calls.{trace_read, trace_listed};
ghost use Rattle.writing.specs.Put.{Put};
ghost use Rattle.writing.specs.Writing.{numbers_line};
ghost use Rattle.traces.specs.Traces.{named_line, damaged_line, reading_text, listing_text, trace_bytes, accesses_told, damaged_told};

use recorder::{Reading, list_damaged, read_trace};
use writing::{put_byte, put_entry, put_named, put_numbers_line, put_refused};

// The text of a trace's accesses, at the front of `output`; they go to `accesses`, as reading leaves them. Long enough is an output of 63
// bytes and 21 for each access that there is room for.
pub fn accesses_of_trace(trace: &[u8], accesses: &mut [u32], output: &mut [u8]) -> Option<usize>
    ensures { record { answer = result; room = accesses.new; output = output.new } ≡ accesses_told trace.now accesses.old output.old }
{
    if !has_bytes(accesses.len(), output.len()) {
        return None;
    }
    let end = put_reading(trace, accesses, output);
    Some(end)
}

// The text of a trace's damaged blocks; their places go to `places`. Long enough is an output of 63 bytes and 21 for each place.
pub fn damaged_of_trace(trace: &[u8], places: &mut [u64], output: &mut [u8]) -> Option<usize>
    ensures { record { answer = result; room = places.new; output = output.new } ≡ damaged_told trace.now places.old output.old }
{
    if !has_bytes(places.len(), output.len()) {
        return None;
    }
    let end = put_listing(trace, places, output);
    Some(end)
}

// Whether `bytes` bytes are surely enough for the text where there is room for `numbers` numbers.
fn has_bytes(numbers: usize, bytes: usize) -> bool
    ensures { result ≡ leb (trace_bytes numbers) bytes }
{
    if bytes < 63 {
        return false;
    }
    numbers <= (bytes - 63) / 21
}

// The text of a trace's accesses, which go to the room for them.
fn put_reading(trace: &[u8], accesses: &mut [u32], output: &mut [u8]) -> usize
    ensures put { Put (reading_text (trace_read trace.now accesses.old).answer (trace_read trace.now accesses.old).room) 0 result output.old output.new }
    ensures accesses_after { accesses.new ≡ (trace_read trace.now accesses.old).room }
{
    match read_trace(trace, accesses) {
        Ok(Reading::Accesses(n)) => {
            let head = put_count(output, b"accesses ", n as u64);
            put_numbers_line(output, head, &accesses[..n])
        }
        Ok(Reading::Damaged(place)) => put_damaged(output, place as u64),
        Err(why) => put_refused(output, why.number()),
    }
}

// The text of a trace's damaged blocks, whose places go to the room for them.
fn put_listing(trace: &[u8], places: &mut [u64], output: &mut [u8]) -> usize
    ensures put { Put (listing_text (trace_listed trace.now places.old).answer (trace_listed trace.now places.old).room) 0 result output.old output.new }
    ensures places_after { places.new ≡ (trace_listed trace.now places.old).room }
{
    match list_damaged(trace, places) {
        Ok(n) => {
            let head = put_count(output, b"damaged ", n as u64);
            put_places(output, head, &places[..n])
        }
        Err(why) => put_refused(output, why.number()),
    }
}

// `word` and `n` on the first line.
fn put_count(room: &mut [u8], word: &[u8], n: u64) -> usize
    ensures { Put (named_line word.now n) 0 result room.old room.new }
{
    let end = put_named(room, 0, word, n);
    put_byte(room, end, b'\n')
}

// The line of the refusal of a damaged block.
fn put_damaged(room: &mut [u8], place: u64) -> usize
    ensures { Put (damaged_line place) 0 result room.old room.new }
{
    let number = put_named(room, 0, b"refused ", 13);
    let gap = put_byte(room, number, b' ');
    put_entry(room, gap, place, true)
}

// The places of blocks on a line.
fn put_places(room: &mut [u8], at: usize, places: &[u64]) -> usize
    ensures { Put (numbers_line places.now) at result room.old room.new }
{
    let mut end = at;
    for (i, place) in places.iter().enumerate() {
        end = put_entry(room, end, *place, i + 1 == places.len());
    }
    end
}
