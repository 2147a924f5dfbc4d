// Text written into lent room, one piece behind the other, as far as the room goes: a byte that there is no room for is left out, and nothing else changes. Each
// function says where what it wrote ends.
#![tactic(auto)]

ghost use Rattle.std.specs.Prelude.{[], ◌∷◌, ◌++◌};
ghost use Rattle.writing.specs.Put.{Put};
ghost use Rattle.writing.specs.Writing.{decimal, refused_line, gap, numbers_line};

// The byte `b` at place `at`.
#[tactic(auto, unfolding(crate::specs::Put::with_bytes))]
pub fn put_byte(room: &mut [u8], at: usize, b: u8) -> usize
    ensures { Put (b ∷ []) at result room.old room.new }
{
    if at < room.len() {
        room[at] = b;
        return at + 1;
    }
    at
}

// `bytes`, from place `at` on.
pub fn put(room: &mut [u8], at: usize, bytes: &[u8]) -> usize
    ensures { Put bytes.now at result room.old room.new }
{
    let mut end = at;
    for b in bytes {
        end = put_byte(room, end, *b);
    }
    end
}

// `n` in decimal.
pub fn put_number(room: &mut [u8], at: usize, n: u64) -> usize
    ensures { Put (decimal n) at result room.old room.new }
{
    let mut digits = [0u8; 20];
    let k = io::decimal(n, &mut digits);
    put(room, at, &digits[..k])
}

// `word`, and `n` behind it.
pub fn put_named(room: &mut [u8], at: usize, word: &[u8], n: u64) -> usize
    ensures { Put (word.now ++ decimal n) at result room.old room.new }
{
    let end = put(room, at, word);
    put_number(room, end, n)
}

// The line of a refusal, at the front.
pub fn put_refused(room: &mut [u8], number: u64) -> usize
    ensures { Put (refused_line number) 0 result room.old room.new }
{
    let end = put_named(room, 0, b"refused ", number);
    put_byte(room, end, b'\n')
}

// `n`, and behind it the newline if it is the last of its line, otherwise a space.
pub fn put_entry(room: &mut [u8], at: usize, n: u64, last: bool) -> usize
    ensures { Put (decimal n ++ (gap last ∷ [])) at result room.old room.new }
{
    let end = put_number(room, at, n);
    if last {
        return put_byte(room, end, b'\n');
    }
    put_byte(room, end, b' ')
}

// Numbers of 32 bits on a line.
pub fn put_numbers_line(room: &mut [u8], at: usize, numbers: &[u32]) -> usize
    ensures { Put (numbers_line numbers.now) at result room.old room.new }
{
    let mut end = at;
    for (i, n) in numbers.iter().enumerate() {
        end = put_entry(room, end, *n as u64, i + 1 == numbers.len());
    }
    end
}
