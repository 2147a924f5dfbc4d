// The floor program: standard input to standard output. It reads the curve program's input, and writes the spread of misses of the best case's table (document 02,
// request 10/13): a line with the number of states, and for each miss count from 0 to the largest a line with the misses, the units there, and the units there and above,
// which are sure: on every path so many misses or more have at least that chance. Or the line of a refusal.
#![tactic(auto)]

use best_questions::miss_spread_in;
use parts::analyse_best_numbers;
use reading::read_numbers;
use rules::Units;

// A word, and a number behind it.
fn write_named(word: &[u8], n: u64) {
    io::write_all(1, word);
    io::print_decimal(1, n);
}

fn write_refused(number: u64) {
    write_named(b"refused ", number);
    io::write_all(1, b"\n");
}

// A miss count, the units there, and the units there and above.
fn write_line(misses: u64, units: u64, least: u64) {
    io::print_decimal(1, misses);
    write_named(b" ", units);
    write_named(b" ", least);
    io::write_all(1, b"\n");
}

// A line for each of the counts: what is left of WHOLE before a count is what stands there and above.
fn write_lines(counts: &[u64]) {
    let whole = Units::WHOLE;
    let mut left = whole.0;
    for (misses, units) in counts.iter().enumerate() {
        write_line(misses as u64, *units, left);
        left = left.saturating_sub(*units);
    }
}

// The counts up to the largest.
fn write_counts(counts: &[u64], largest: u64) {
    if (counts.len() as u64) <= largest {
        return;
    }
    let end = largest as usize + 1;
    write_lines(&counts[0..end]);
}

// The spread of misses of the table of `states` states in the result room.
fn write_table(res: &[u64], states: usize) {
    let mut counts: [u64; 4097] = [0; 4097];
    write_named(b"states ", states as u64);
    io::write_all(1, b"\n");
    match miss_spread_in(res, states, &mut counts) {
        Ok(most) => write_counts(&counts, most.0),
        Err(why) => write_refused(why.number()),
    }
}

// The best case of numbers in the curve's order, on a cache of one set, of the first revision.
fn write_floor(numbers: &[u32]) {
    let mut result: [u64; 320] = [0; 320];
    let mut work: [u64; 25920] = [0; 25920];
    match analyse_best_numbers(1, 1, numbers, &mut result, &mut work) {
        Ok(states) => write_table(&result, states),
        Err(why) => write_refused(why.number()),
    }
}

// The first `n` numbers of a room.
fn write_front(numbers: &[u32], n: usize) {
    if n <= numbers.len() {
        write_floor(&numbers[0..n]);
    }
}

fn of_text(text: &[u8]) {
    let mut numbers: [u32; 16384] = [0; 16384];
    match read_numbers(text, &mut numbers) {
        Some(n) => write_front(&numbers, n),
        None => write_refused(9),
    }
}

// One byte more than a text may have is read, so that a longer one is seen to be too long.
fn main() {
    let mut input: [u8; 65537] = [0; 65537];
    let n = io::read_full(0, &mut input);
    of_text(&input[..n]);
}
