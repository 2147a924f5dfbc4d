// The lines of a trace (document 02, request 7/13). One trace is kept from line to line, and field 2 says how many bytes of it a line is about:
//
//     new          |                           | bytes | accesses         zeros, and then the blocks of these accesses
//     bytes        | place, byte, place, byte .. | bytes                  these bytes are changed
//     equals       | place, byte, place, byte .. | bytes                  one block, of zeros but for these bytes
//     shown NAME   | place, byte               | bytes                    one byte is written and compared
//     made NAME    | answer, end               | bytes | accesses         the accesses are written, and their blocks end at byte `end`
//     damaged NAME | answer                    | bytes | places | room    the damaged blocks are listed in room for so many
//     got NAME     | answer, value             | bytes | accesses | room  the trace is read into room for so many accesses
//
// where the answer is 0 or the number of a refusal, which leaves the room as it was. The value is how many accesses were read, or the place of
// a damaged block.
use crate::listings::{holds, rest_of};
use case_text::fields::{copy_small, count, field_of, list_of, number};
use case_text::report::Report;
use case_text::rooms::{first, is_left, mark};
use case_text::said::{Said, refusal_said, value_said};
use case_text::shown::{say, say_answer};
use recorder::{Reading, list_damaged, read_trace, write_trace};
use rules::Refusal;

fn blocks_said(answer: Result<usize, Refusal>) -> Said {
    match answer {
        Ok(blocks) => value_said(blocks as u64),
        Err(why) => refusal_said(why),
    }
}

// A damaged block is refused with 13, and the value is its place.
fn reading_said(answer: Result<Reading, Refusal>) -> Said {
    match answer {
        Ok(Reading::Accesses(accesses)) => value_said(accesses as u64),
        Ok(Reading::Damaged(place)) => Said {
            refusal: 13,
            value: place as u64,
        },
        Err(why) => refusal_said(why),
    }
}

// Whether each byte from place `from` on is `value`.
fn bytes_are(room: &[u8], from: usize, value: u8) -> bool {
    room.iter().skip(from).all(|byte| *byte == value)
}

fn put_byte(trace: &mut [u8], at: u64, byte: u64) {
    if let (Some(place), Ok(byte)) = (trace.get_mut(at as usize), u8::try_from(byte)) {
        *place = byte;
    }
}

// The bytes of a line, at their places.
fn put_bytes(trace: &mut [u8], line: &[u64]) {
    for pair in field_of(line, 1).chunks_exact(2) {
        put_byte(trace, pair[0], pair[1]);
    }
}

// The accesses of a line are written.
fn write_list(trace: &mut [u8], line: &[u64]) -> Said {
    let mut list: [u32; 4352] = [0; 4352];
    copy_small(line, &mut list);
    blocks_said(write_trace(list_of(line, &list, 3), trace))
}

// Whether the trace is a block of zeros but for the bytes of a line.
fn is_block(trace: &[u8], line: &[u64]) -> bool {
    let mut block: [u8; 512] = [0; 512];
    put_bytes(&mut block, line);
    check::same(trace, &block)
}

// What writing left: blocks up to byte `end` and zeros behind them, or a refusal with the bytes as they were.
fn compare_made(line: &[u64], said: Said, trace: &[u8], report: Report) -> Report {
    let answer = number(line, 1, 0);
    let end = number(line, 1, 1);
    say_answer(said.refusal);
    let told = report
        .compared(said.refusal == answer)
        .compared(said.value == end / 512);
    if answer == 0 {
        return told.compared(bytes_are(trace, end as usize, 0));
    }
    told.compared(bytes_are(trace, 0, 7))
}

fn made(line: &[u64], trace: &mut [u8], report: Report) -> Report {
    trace.fill(7);
    let said = write_list(trace, line);
    compare_made(line, said, trace, report)
}

// What reading left: the accesses and zeros behind them, or a refusal with the room as it was.
fn compare_got(line: &[u64], said: Said, room: &[u32], report: Report) -> Report {
    let answer = number(line, 1, 0);
    let told = report
        .compared(said.refusal == answer)
        .compared(said.value == number(line, 1, 1))
        .compared(holds(line, 3, room, rest_of(answer)));
    if answer == 0 {
        return told.compared(said.value == count(line, 3) as u64);
    }
    told
}

fn got(line: &[u64], trace: &[u8], report: Report) -> Report {
    let mut accesses: [u32; 400] = [7; 400];
    let room = first(&mut accesses, number(line, 4, 0));
    let said = reading_said(read_trace(trace, room));
    say_answer(said.refusal);
    compare_got(line, said, room, report)
}

// How many blocks are damaged, or the refusal.
fn say_damaged(said: Said) {
    if said.refusal == 0 {
        say(b": damaged ", said.value);
        return;
    }
    say_answer(said.refusal);
}

// The damaged blocks are listed: these places and zeros behind them, or a refusal that leaves the room as it was.
fn damaged(line: &[u64], trace: &[u8], report: Report) -> Report {
    let answer = number(line, 1, 0);
    let mut room: [u64; 5] = [0; 5];
    let places = first(&mut room, number(line, 4, 0));
    mark(places);
    let said = blocks_said(list_damaged(trace, places));
    say_damaged(said);
    report
        .compared(said.refusal == answer)
        .compared(said.value == count(line, 3) as u64)
        .compared(is_left(answer, places, field_of(line, 3)))
}

// The byte at place `at`, and no byte past the end.
fn byte_at(trace: &[u8], at: usize) -> u64 {
    match trace.get(at) {
        Some(byte) => u64::from(*byte),
        None => 256,
    }
}

fn shown(line: &[u64], trace: &[u8], report: Report) -> Report {
    let byte = byte_at(trace, number(line, 1, 0) as usize);
    say(b": ", byte);
    report.compared(byte == number(line, 1, 1))
}

// A line that leaves the trace as it is.
fn looked(kind: u8, line: &[u64], trace: &[u8], report: Report) -> Report {
    match kind {
        b'e' => report.compared(is_block(trace, line)),
        b's' => shown(line, trace, report),
        b'd' => damaged(line, trace, report),
        _ => got(line, trace, report),
    }
}

// A line about these bytes of the trace.
fn trace_in(kind: u8, line: &[u64], trace: &mut [u8], report: Report) -> Report {
    if kind == b'n' {
        trace.fill(0);
        write_list(trace, line);
        return report;
    }
    if kind == b'b' {
        put_bytes(trace, line);
        return report;
    }
    if kind == b'm' {
        return made(line, trace, report);
    }
    looked(kind, line, trace, report)
}

pub(crate) fn trace_line(kind: u8, line: &[u64], trace: &mut [u8], report: Report) -> Report {
    let end = number(line, 2, 0) as usize;
    if trace.len() < end {
        return report.compared(false);
    }
    trace_in(kind, line, &mut trace[0..end], report)
}
