// How answers are written.

pub fn end_line() {
    io::write_all(1, b"\n");
}

// The end of a line: some words and a number.
pub fn say(words: &[u8], n: u64) {
    io::write_all(1, words);
    io::print_decimal(1, n);
    end_line();
}

// What a call answered, in words.
pub fn say_answer(refusal: u64) {
    if refusal == 0 {
        io::write_all(1, b" passes\n");
        return;
    }
    say(b" gives ", refusal);
}

pub fn say_number(n: u64) {
    io::write_all(1, b" ");
    io::print_decimal(1, n);
}
