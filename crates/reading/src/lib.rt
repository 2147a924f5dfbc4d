// Text read: the numbers of a well-formed text, document 01, section 7.
#![tactic(auto)]

ghost use Rattle.std.specs.Prelude.{◌≡◌, ◌≤◌, length};
ghost use Rattle.reading.specs.Reading.{is_gap, is_digit};
ghost use Rattle.reading.specs.Call.{after_reading};
ghost use Rattle.reading.specs.Found.{Found};
ghost use Rattle.reading.specs.Standing.{standing, digit_added, number_ended, byte_taken};

// How far reading has come where all is well so far: how many numbers are done, how many digits the number under way has (0: none is under way), and the value that
// they say.
#[derive(Clone, Copy)]
struct Progress {
    count: usize,
    digits: usize,
    value: u32,
}

// Whether `b` is a space or a newline.
fn is_gap(b: u8) -> bool
    ensures { result ≡ is_gap b }
{
    if b == b' ' {
        return true;
    }
    b == b'\n'
}

// Whether `b` is a decimal digit.
fn is_digit(b: u8) -> bool
    ensures { result ≡ is_digit b }
{
    if b < b'0' {
        return false;
    }
    b <= b'9'
}

// `b` is one more digit of the number under way: all is lost if it is no digit, there are ten already, or the value is too large.
#[tactic(auto, unfolding(crate::specs::Standing::digit_added))]
fn add_digit(p: Progress, b: u8) -> Option<Progress>
    ensures { result ≡ digit_added b p }
{
    if 10 <= p.digits {
        return None;
    }
    if !is_digit(b) {
        return None;
    }
    let v = p.value as u64 * 10 + (b - b'0') as u64;
    if 4294967295 < v {
        return None;
    }
    Some(Progress {
        count: p.count,
        digits: p.digits + 1,
        value: v as u32,
    })
}

// The number under way, if there is one, goes behind those that are done: all is lost if there are 16,384 already.
#[tactic(auto, unfolding(crate::specs::Standing::number_ended))]
fn end_number(numbers: &mut [u32], p: Progress) -> Option<Progress>
    requires { 16384 ≤ length numbers.old }
    ensures { standing result numbers.new ≡ number_ended (standing (Some p) numbers.old) }
{
    if p.digits == 0 {
        return Some(p);
    }
    let at = p.count;
    if 16384 <= at {
        return None;
    }
    numbers[at] = p.value;
    Some(Progress {
        count: at + 1,
        digits: 0,
        value: 0,
    })
}

// A gap ends the number under way, and any other byte belongs to it.
#[tactic(auto, unfolding(crate::specs::Standing::byte_taken))]
fn take_byte(numbers: &mut [u32], p: Progress, b: u8) -> Option<Progress>
    requires { 16384 ≤ length numbers.old }
    ensures { standing result numbers.new ≡ byte_taken b (standing (Some p) numbers.old) }
{
    if is_gap(b) {
        return end_number(numbers, p);
    }
    add_digit(p, b)
}

// The text from its first byte to its last: its numbers go to the front of `numbers`. How many they are, or None where the text is malformed.
#[tactic(auto, using(crate::proofs::Scanning::too_long))]
fn scan(text: &[u8], numbers: &mut [u32]) -> Option<usize>
    requires { 16384 ≤ length numbers.old }
    ensures { Found text.now numbers.old result numbers.new }
{
    if 65536 < text.len() {
        return None;
    }
    let mut p = Progress {
        count: 0,
        digits: 0,
        value: 0,
    };
    for b in text {
        p = take_byte(numbers, p, *b)?;
    }
    let end = end_number(numbers, p)?;
    Some(end.count)
}

// The numbers of `text` go to the front of `numbers`, which has to have room for 16,384. How many they are; or None, because the text is malformed or the room too
// short, and then `numbers` is zero.
#[tactic(auto, using(crate::proofs::Calls::short_room))]
pub fn read_numbers(text: &[u8], numbers: &mut [u32]) -> Option<usize>
    ensures { record { answer = result; room = numbers.new } ≡ after_reading text.now numbers.old }
{
    if numbers.len() < 16384 {
        numbers.fill(0);
        return None;
    }
    let read = scan(text, numbers);
    if read.is_none() {
        numbers.fill(0);
    }
    read
}
