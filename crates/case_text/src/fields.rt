// The text of the cases, read line by line. A line is a word, a name, and fields of numbers behind upright strokes:
//
//     worked case 3: | 1 set of 1, limit 64 | 10 11 12 | 4 | 10 10 11 10 | | ..
//
// In a field all but digits separates numbers, `10*4096` is 10, 4,096 times, and `2.1` is a word of eight bytes, of which the first, the highest, is 2 and the second 1. The numbers of a line stand in one room from place 16 on, and at
// place k of the room where field k begins; the one behind the last field begins where the numbers end.
ghost use Rattle.std.specs.Prelude.{◌≡◌, ◌≤◌, ◌<◌, min, length};

use crate::plus;

// The place of the first `mark` from place `from` on, or the end.
fn find(text: &[u8], from: usize, mark: u8) -> usize
    ensures { result ≤ length text.now }
{
    for i in from..text.len() {
        if text[i] == mark {
            return i;
        }
    }
    text.len()
}

// The place behind the line that begins at place `from`.
pub fn next_line(text: &[u8], from: usize) -> usize
    ensures { from < length text.now → from < result }
{
    if text.len() <= from {
        return from;
    }
    let end = find(text, from, b'\n');
    if text.len() <= end {
        return text.len();
    }
    if end < from {
        return from + 1;
    }
    end + 1
}

// What was read of a line: which field is next, where the next number belongs, the one that is being read and whether it has digits, the number
// that it repeats, if any, and the bytes before it with how many bits are behind the next one.
#[derive(Clone, Copy)]
struct Scan {
    field: usize,
    end: usize,
    number: u64,
    digits: bool,
    repeated: Option<u64>,
    bytes: u64,
    behind: usize,
}

// Ten times a number and a digit; the largest number stands for one that does not fit.
fn with_digit(n: u64, digit: u8) -> u64 {
    plus(n.saturating_mul(10), u64::from(digit))
}

fn put(room: &mut [u64], at: usize, value: u64) {
    if let Some(place) = room.get_mut(at) {
        *place = value;
    }
}

// `value` from place `from` on, up to below place `end` or to the room's end.
fn put_all(room: &mut [u64], from: usize, end: usize, value: u64) {
    if let Some(places) = room.get_mut(from..end.min(room.len())) {
        places.fill(value);
    }
}

// The bytes that were read, and the next one with `behind` bits behind it.
fn with_byte(bytes: u64, byte: u64, behind: usize) -> u64 {
    if 56 < behind {
        return bytes;
    }
    bytes | ((byte % 256) << behind)
}

// The number that was read, or the word of eight bytes.
fn number_read(scan: Scan) -> u64 {
    if scan.behind == 56 {
        return scan.number;
    }
    with_byte(scan.bytes, scan.number, scan.behind)
}

// A byte ends here, and another one follows.
fn end_byte(scan: Scan) -> Scan {
    let mut next = scan;
    next.bytes = with_byte(scan.bytes, scan.number, scan.behind);
    next.number = 0;
    if 8 <= scan.behind {
        next.behind = scan.behind - 8;
    }
    next
}

// The number ends here, if there is one.
fn end_number(scan: Scan, room: &mut [u64]) -> Scan {
    let mut next = scan;
    next.number = 0;
    next.digits = false;
    next.repeated = None;
    next.bytes = 0;
    next.behind = 56;
    if !scan.digits {
        return next;
    }
    next.end = place_behind(scan);
    match scan.repeated {
        Some(value) => put_all(room, scan.end, next.end, value),
        None => put(room, scan.end, number_read(scan)),
    }
    next
}

// Where the next number belongs, at most 4,096 and 4,096 places on.
fn place_behind(scan: Scan) -> usize {
    if 8192 < scan.end {
        return scan.end;
    }
    if scan.repeated.is_none() {
        return scan.end + 1;
    }
    if 8192 < scan.number {
        return scan.end;
    }
    scan.end + scan.number as usize
}

// One byte of the fields.
fn take_byte(scan: Scan, byte: u8, room: &mut [u64]) -> Scan {
    let mut next = scan;
    if b'0' <= byte {
        if byte <= b'9' {
            next.number = with_digit(scan.number, byte - b'0');
            next.digits = true;
            return next;
        }
    }
    if byte == b'*' {
        next.repeated = Some(scan.number);
        next.number = 0;
        return next;
    }
    if byte == b'.' {
        return end_byte(scan);
    }
    next = end_number(scan, room);
    if byte == b'|' {
        put(room, next.field, next.end as u64);
        if next.field < 15 {
            next.field += 1;
        }
    }
    next
}

fn scan_fields(fields: &[u8], room: &mut [u64]) -> Scan {
    let mut scan = Scan {
        field: 1,
        end: 16,
        number: 0,
        digits: false,
        repeated: None,
        bytes: 0,
        behind: 56,
    };
    for byte in fields {
        scan = take_byte(scan, *byte, room);
    }
    scan
}

// The fields of a line. Those that are not there are empty.
fn read_fields(fields: &[u8], room: &mut [u64]) {
    let scan = scan_fields(fields, room);
    let all = end_number(scan, room);
    put_all(room, all.field, 16, all.end as u64);
}

// What a line is: its first byte.
pub fn kind_of(text: &[u8], from: usize) -> u8 {
    text.get(from).copied().unwrap_or(b'\n')
}

// The name of a line stands between its first space and the space before its first stroke; it may have none.
pub fn name_of<'a>(text: &'a [u8], from: usize) -> &'a [u8] {
    let space = find(text, from, b' ');
    let stroke = find(text, from, b'|');
    if stroke <= space {
        return &text[0..0];
    }
    if stroke - space < 2 {
        return &text[0..0];
    }
    &text[space + 1..stroke - 1]
}

// The numbers of the line that begins at place `from`.
pub fn read_line(text: &[u8], from: usize, line: &mut [u64]) {
    let stroke = find(text, from, b'|');
    let end = find(text, from, b'\n');
    read_fields(&text[stroke.min(end)..end], line);
}

// Where a field begins.
fn begin(line: &[u64], field: usize) -> usize
    ensures { result ≤ length line.now }
{
    if line.len() <= field {
        return 0;
    }
    let at = line[field] as usize;
    if line.len() < at {
        return 0;
    }
    at
}

// The numbers of a field, where `list` has those of the line; none where it is not there.
pub fn list_of<'a, T>(line: &[u64], list: &'a [T], field: usize) -> &'a [T] {
    if 14 < field {
        return &list[0..0];
    }
    let from = begin(line, field);
    let end = begin(line, field + 1);
    if end < from {
        return &list[0..0];
    }
    if list.len() < end {
        return &list[0..0];
    }
    &list[from..end]
}

// The numbers of a field of the line itself.
pub fn field_of<'a>(line: &'a [u64], field: usize) -> &'a [u64] {
    list_of(line, line, field)
}

// The number at place `i` of a field, and 0 past the field's end.
pub fn number(line: &[u64], field: usize, i: usize) -> u64 {
    field_of(line, field).get(i).copied().unwrap_or(0)
}

// How many numbers a field has.
pub fn count(line: &[u64], field: usize) -> usize {
    field_of(line, field).len()
}

// A number as 32 bits; the largest number stands for one that does not fit.
pub fn small(n: u64) -> u32
    ensures { result ≡ min n 4294967295 }
{
    u32::try_from(n).unwrap_or(u32::MAX)
}

// The numbers of a line as 32 bits, each at its place.
pub fn copy_small(line: &[u64], list: &mut [u32]) {
    for (place, number) in list.iter_mut().zip(line) {
        *place = small(*number);
    }
}
