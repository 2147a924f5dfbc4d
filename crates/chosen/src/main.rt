// The program for a chosen cache: a text that begins with set count, revision and start on standard input, and its curve on standard output; with the word `cycles` its
// curves in cycles. All that it does itself is to move bytes; what they are is `text`'s.
#![tactic(auto)]

use front::write_front;
use std::env::{Env, FillError};
use text::{curve_of_chosen_text, cycles_of_chosen_text};

// The curve of a text, in rooms of the sizes that are needed.
fn write_curve(input: &[u8]) {
    let mut numbers: [u32; 16384] = [0; 16384];
    let mut result: [u64; 320] = [0; 320];
    let mut work: [u64; 25920] = [0; 25920];
    let mut counts: [u64; 4097] = [0; 4097];
    let mut output: [u8; 262144] = [0; 262144];
    if let Some(n) = curve_of_chosen_text(
        input,
        &mut numbers,
        &mut result,
        &mut work,
        &mut counts,
        &mut output,
    ) {
        write_front(&output, n);
    }
}

// The curves in cycles of a text go to standard output, by way of `output`; the other rooms have the sizes that are needed.
fn write_cycles(input: &[u8], output: &mut [u8]) {
    let mut numbers: [u32; 16384] = [0; 16384];
    let mut result: [u64; 320] = [0; 320];
    let mut work: [u64; 25920] = [0; 25920];
    let mut counts: [u64; 4097] = [0; 4097];
    if let Some(n) = cycles_of_chosen_text(
        input,
        &mut numbers,
        &mut result,
        &mut work,
        &mut counts,
        output,
    ) {
        write_front(output, n);
    }
}

// The room for the text has the size that is needed. It is in a function of its own: that it is long enough is shown by a law, not by
// counting three million bytes.
fn with_output(input: &[u8]) {
    let mut output: [u8; 3145728] = [0; 3145728];
    write_cycles(input, &mut output);
}

// What the program's argument asks for: nothing, or the word `cycles`.
fn tell<R: Env>(rt: &R, input: &[u8]) {
    let mut word: [u8; 7] = [0; 7];
    match rt.arg(1, &mut word) {
        Err(FillError::NotPresent) => write_curve(input),
        Err(FillError::TooLong) => refuse_word(),
        Ok(n) => {
            if check::same(&word[..n], b"cycles") {
                with_output(input);
            } else {
                refuse_word();
            }
        }
    }
}

// Any other argument is refused.
fn refuse_word() {
    io::write_all(2, b"chosen: the only argument is the word cycles\n");
}

// One byte more than a text may have is read, so that a longer one is seen to be too long.
fn main(rt: HostRuntime) {
    let mut input: [u8; 65537] = [0; 65537];
    let n = io::read_full(0, &mut input);
    tell(&rt, &input[..n]);
}
