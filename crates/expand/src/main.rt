// The listing program: standard input to standard output. All that it does itself is to move bytes; what they are is `graphs`'s.
#![tactic(auto)]

use front::write_front;
use graphs::graph_of_text;

// The curve program's input for a text, in rooms of the sizes that are needed.
fn write_graph(input: &[u8]) {
    let mut numbers: [u32; 16384] = [0; 16384];
    let mut runs: [u32; 64] = [0; 64];
    let mut accesses: [u32; 4096] = [0; 4096];
    let mut edges: [u32; 4032] = [0; 4032];
    let mut output: [u8; 262144] = [0; 262144];
    if let Some(n) = graph_of_text(
        input,
        &mut numbers,
        &mut runs,
        &mut accesses,
        &mut edges,
        &mut output,
    ) {
        write_front(&output, n);
    }
}

// One byte more than a text may have is read, so that a longer one is seen to be too long.
fn main() {
    let mut input: [u8; 65537] = [0; 65537];
    let n = io::read_full(0, &mut input);
    write_graph(&input[..n]);
}
