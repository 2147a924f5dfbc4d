// What the programs share: they write the front of a room. No contract can say what is written.
#![tactic(auto)]

// The first `n` bytes go to standard output.
pub fn write_front(bytes: &[u8], n: usize) {
    if n <= bytes.len() {
        io::write_all(1, &bytes[..n]);
    }
}
