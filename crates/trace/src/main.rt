// The trace program: a trace on standard input, and on standard output its accesses; with the word `damaged` the places of its damaged blocks. All that it does itself
// is to move bytes; what they are is `traces`'s.
#![tactic(auto)]

use front::write_front;
use std::env::{Env, FillError};
use traces::{accesses_of_trace, damaged_of_trace};

// The accesses of a trace of up to 1,024 blocks, by way of `output`.
fn tell_accesses(trace: &[u8], output: &mut [u8]) {
    let mut accesses: [u32; 128000] = [0; 128000];
    if let Some(n) = accesses_of_trace(trace, &mut accesses, output) {
        write_front(output, n);
    }
}

// The room for the text has the size that is needed. It is in a function of its own: that it is long enough is shown by a law, not by
// counting its bytes.
fn with_output(trace: &[u8]) {
    let mut output: [u8; 2688063] = [0; 2688063];
    tell_accesses(trace, &mut output);
}

// The places of the damaged blocks of a trace of up to 1,024 blocks.
fn tell_damaged(trace: &[u8]) {
    let mut places: [u64; 1024] = [0; 1024];
    let mut output: [u8; 21567] = [0; 21567];
    if let Some(n) = damaged_of_trace(trace, &mut places, &mut output) {
        write_front(&output, n);
    }
}

// What the program's argument asks for: nothing, or the word `damaged`.
fn tell<R: Env>(rt: &R, trace: &[u8]) {
    let mut word: [u8; 8] = [0; 8];
    match rt.arg(1, &mut word) {
        Err(FillError::NotPresent) => with_output(trace),
        Err(FillError::TooLong) => refuse_word(),
        Ok(n) => {
            if check::same(&word[..n], b"damaged") {
                tell_damaged(trace);
            } else {
                refuse_word();
            }
        }
    }
}

// Any other argument is refused.
fn refuse_word() {
    io::write_all(2, b"trace: the only argument is the word damaged\n");
}

// What is read goes to `room`, and from there to the answer.
fn read_and_tell<R: Env>(rt: &R, room: &mut [u8]) {
    let n = io::read_full(0, room);
    tell(rt, &room[..n]);
}

// One block more than there is room for is read, so that a longer trace is refused and never cut.
fn main(rt: HostRuntime) {
    let mut trace: [u8; 524800] = [0; 524800];
    read_and_tell(&rt, &mut trace);
}
