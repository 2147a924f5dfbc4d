// The curve program: standard input to standard output. All that it does itself is to move bytes; what they are is `text`'s.
#![tactic(auto)]

use front::write_front;
use text::curve_of_text;

// The curve of a text, in rooms of the sizes that are needed.
fn write_curve(input: &[u8]) {
    let mut numbers: [u32; 16384] = [0; 16384];
    let mut result: [u64; 320] = [0; 320];
    let mut work: [u64; 25920] = [0; 25920];
    let mut counts: [u64; 4097] = [0; 4097];
    let mut output: [u8; 262144] = [0; 262144];
    if let Some(n) = curve_of_text(
        input,
        &mut numbers,
        &mut result,
        &mut work,
        &mut counts,
        &mut output,
    ) {
        write_front(&output, n);
    }
}

// One byte more than a text may have is read, so that a longer one is seen to be too long.
fn main() {
    let mut input: [u8; 65537] = [0; 65537];
    let n = io::read_full(0, &mut input);
    write_curve(&input[..n]);
}
