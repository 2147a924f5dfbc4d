// The program for curves in cycles: standard input to standard output. All that it does itself is to move bytes; what they are is `text`'s.
#![tactic(auto)]

use front::write_front;
use text::cycles_of_text;

// The curves in cycles of a text go to standard output, by way of `output`; the other rooms have the sizes that are needed.
fn write_cycles(input: &[u8], output: &mut [u8]) {
    let mut numbers: [u32; 16384] = [0; 16384];
    let mut result: [u64; 320] = [0; 320];
    let mut work: [u64; 25920] = [0; 25920];
    let mut counts: [u64; 4097] = [0; 4097];
    if let Some(n) = cycles_of_text(
        input,
        &mut numbers,
        &mut result,
        &mut work,
        &mut counts,
        output,
    ) {
        write_front(output, n);
    }
}

// The room for the text has the size that is needed. It is in a function of its own: that it is long enough is shown by a law, not by
// counting three million bytes.
fn with_output(input: &[u8]) {
    let mut output: [u8; 3145728] = [0; 3145728];
    write_cycles(input, &mut output);
}

// One byte more than a text may have is read, so that a longer one is seen to be too long.
fn main() {
    let mut input: [u8; 65537] = [0; 65537];
    let n = io::read_full(0, &mut input);
    with_output(&input[..n]);
}
