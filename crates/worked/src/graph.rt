// The lines of a graph: what the graph call and the longest path answer, and what stands in the rooms after the call. The fields are
//
//     sets, ways, revision, limit, used | tracked blocks | run lengths | accesses | edges | words of the result room and of the working room | answer, set aside | states
//
// where used is 1 for a cache that is found used, and left out otherwise, the answer is 0 or the number of a refusal, and a state is five words: mask, misses, two of filled numbers, units. A `worked` case is written with its answers to every question, which are compared; of a
// `refusal` only what it gives is written, and of a `path` the longest path, which stands in the place of the answer. A graph with pairings (document 02, request 11/13) has two fields more:
//
//     joined NAME, unjoined NAME | .. | answer, set aside | states | for each join how many rows its pairing has | rows
//
// where 18446744073709551615 stands for no pairing, and a row is a place in the table joined so far, a place in the joined one, and units. One that is accepted is `joined`, and written as
// a worked case is; one that is refused is `unjoined`.
use crate::answers::ask_case;
use crate::calling::{Got, called, path_of};
use crate::floors::ask_floor;
use case_text::fields::{count, field_of, number};
use case_text::report::Report;
use case_text::rooms::{first, is_cleared, is_left, mark};
use case_text::said::Said;
use case_text::shown::{say, say_answer, say_number};

// What the longest path has to answer where the graph call answers `refusal`. It is lent no room, so 6 does not apply. In every input of
// the graph call here that passes, one path has all accesses.
fn compare_longest(said: Said, refusal: u64, accesses: usize, report: Report) -> Report {
    match refusal {
        0 | 6 => report
            .compared(said.refusal == 0)
            .compared(said.value == accesses as u64),
        _ => report
            .compared(said.refusal == refusal)
            .compared(said.value == 0),
    }
}

// The longest path alone.
fn compare_path(said: Said, accesses: u64, report: Report) -> Report {
    say(b": ", said.value);
    report
        .compared(said.refusal == 0)
        .compared(said.value == accesses)
}

// The longest path of a line; it is not asked where the best case is, or pairings are handed in.
fn compare_asked(kind: u8, said: Said, line: &[u64], report: Report) -> Report {
    match kind {
        b'w' | b'r' => compare_longest(said, number(line, 7, 0), count(line, 4), report),
        b'p' => compare_path(said, number(line, 7, 0), report),
        _ => report,
    }
}

// What a line's call answered: this refusal, or so many states and this set-aside count, of which the best case has none.
fn compare_got(kind: u8, got: Got, line: &[u64], report: Report) -> Report {
    let answer = number(line, 7, 0);
    let told = report.compared(got.refusal == answer);
    if answer != 0 {
        return told;
    }
    let states = told.compared(times_five(got.states) == count(line, 8));
    if kind == b'f' {
        return states;
    }
    states.compared(got.aside == number(line, 7, 1))
}

// The words of so many states, of which a table has at most 64.
fn times_five(states: usize) -> usize {
    if 64 < states {
        return 0;
    }
    states * 5
}

// After 19 the working room is zero, as after success.
fn cleared_by(answer: u64) -> u64 {
    if answer == 19 {
        return 0;
    }
    answer
}

// What the call left: these states and zeros behind them, and the working room zero; or after a refusal both rooms as they were.
fn compare_left(line: &[u64], res: &[u64], work: &[u64], report: Report) -> Report {
    let answer = number(line, 7, 0);
    report
        .compared(is_left(answer, res, field_of(line, 8)))
        .compared(is_cleared(cleared_by(answer), work))
}

// One state, as mask/misses/units.
fn say_state(mask: u64, misses: u64, units: u64) {
    say_number(mask);
    io::write_all(1, b"/");
    io::print_decimal(1, misses);
    io::write_all(1, b"/");
    io::print_decimal(1, units);
}

// The first `states` states of a room; those that the room cannot hold are not written.
fn say_states(room: &[u64], states: usize) {
    for state in room.chunks_exact(5).take(states) {
        say_state(state[0], state[1], state[4]);
    }
}

// A worked case: the states that it got are written, and every question is put to them, in cycles with its longest path.
fn say_case(name: &[u8], got: Got, longest: u64, res: &[u64], report: Report) -> Report {
    io::write_all(1, name);
    say_states(res, got.states);
    say(b" aside ", got.aside);
    ask_case(name, res, got.states, longest, report)
}

// What is written of a line's answer, and asked of its table.
fn tell(
    kind: u8,
    name: &[u8],
    got: Got,
    longest: u64,
    line: &[u64],
    res: &[u64],
    report: Report,
) -> Report {
    match kind {
        b'w' | b'j' => say_case(name, got, longest, res, report),
        b'f' => ask_floor(got.refusal, got.states, line, res, report),
        _ => {
            say_answer(got.refusal);
            report
        }
    }
}

// What was got of a line is compared, and told.
fn judge(
    kind: u8,
    name: &[u8],
    got: Got,
    longest: u64,
    line: &[u64],
    res: &[u64],
    work: &[u64],
    report: Report,
) -> Report {
    let told = compare_got(kind, got, line, report);
    let left = compare_left(line, res, work, told);
    tell(kind, name, got, longest, line, res, left)
}

// The call of a line in these rooms.
fn graph_in(
    kind: u8,
    name: &[u8],
    longest: u64,
    line: &[u64],
    res: &mut [u64],
    work: &mut [u64],
    report: Report,
) -> Report {
    mark(res);
    mark(work);
    let got = called(kind, line, res, work);
    judge(kind, name, got, longest, line, res, work, report)
}

// The same, in rooms of as many words as the line says.
fn in_rooms(kind: u8, name: &[u8], longest: u64, line: &[u64], report: Report) -> Report {
    let mut result_room: [u64; 328] = [0; 328];
    let mut work_room: [u64; 25932] = [0; 25932];
    let result = first(&mut result_room, number(line, 6, 0));
    let work = first(&mut work_room, number(line, 6, 1));
    graph_in(kind, name, longest, line, result, work, report)
}

pub(crate) fn graph_line(kind: u8, name: &[u8], line: &[u64], report: Report) -> Report {
    let longest = path_of(line);
    let asked = compare_asked(kind, longest, line, report);
    if kind == b'p' {
        return asked;
    }
    in_rooms(kind, name, longest.value, line, asked)
}
