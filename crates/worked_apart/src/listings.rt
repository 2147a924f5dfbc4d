// The lines of a listing (document 02, request 8/13): the graph that it expands into, or its refusal. The fields are
//
//     compiled NAME | numbers of the rooms for run lengths, accesses and edges | answer | tokens | run lengths | accesses | edges
//
// where the answer is 0 or the number of a refusal. Before the call every number of the rooms is 7, and after it every one of them is compared.
use case_text::fields::{copy_small, count, list_of, number, small};
use case_text::report::Report;
use case_text::rooms::first;
use case_text::shown::say;
use listing::{GraphSize, expand};
use rules::Refusal;

// What a call answered, in numbers: a refusal's number and nothing else, or 0 and how many nodes, accesses and edges there are. Kept as numbers, as a line of the
// cases tells them: each is a comparison of its own, which the programs count.
#[derive(Clone, Copy)]
struct Size {
    refusal: u64,
    nodes: usize,
    accesses: usize,
    edges: usize,
}

fn size_said(answer: Result<GraphSize, Refusal>) -> Size {
    match answer {
        Ok(size) => Size {
            refusal: 0,
            nodes: size.nodes,
            accesses: size.accesses,
            edges: size.edges,
        },
        Err(why) => Size {
            refusal: why.number(),
            nodes: 0,
            accesses: 0,
            edges: 0,
        },
    }
}

fn say_size(size: Size) {
    if size.refusal != 0 {
        say(b" gives ", size.refusal);
        return;
    }
    io::write_all(1, b": nodes ");
    io::print_decimal(1, size.nodes as u64);
    io::write_all(1, b" accesses ");
    io::print_decimal(1, size.accesses as u64);
    say(b" edges ", size.edges as u64);
}

// The call on the tokens of a line.
fn expanded(line: &[u64], runs: &mut [u32], accesses: &mut [u32], edges: &mut [u32]) -> Size {
    let mut list: [u32; 4352] = [0; 4352];
    copy_small(line, &mut list);
    size_said(expand(list_of(line, &list, 3), runs, accesses, edges))
}

// The number at place `at` of a field, and `rest` past its end.
fn number_or(line: &[u64], field: usize, at: usize, rest: u32) -> u32 {
    if at < count(line, field) {
        return small(number(line, field, at));
    }
    rest
}

// Whether the room begins with the numbers of a field, and from there to its end every number is `rest`.
pub(crate) fn holds(line: &[u64], field: usize, room: &[u32], rest: u32) -> bool {
    if room.len() < count(line, field) {
        return false;
    }
    room.iter()
        .enumerate()
        .all(|(i, found)| *found == number_or(line, field, i, rest))
}

// What is behind the numbers that a call leaves: zeros; or what stood in the room before, after a refusal.
pub(crate) fn rest_of(refusal: u64) -> u32 {
    if refusal == 0 {
        return 0;
    }
    7
}

fn compare(
    line: &[u64],
    size: Size,
    runs: &[u32],
    accesses: &[u32],
    edges: &[u32],
    report: Report,
) -> Report {
    let refusal = number(line, 2, 0);
    let rest = rest_of(refusal);
    report
        .compared(size.refusal == refusal)
        .compared(size.nodes == count(line, 4))
        .compared(size.accesses == count(line, 5))
        .compared(size.edges == count(line, 6) / 2)
        .compared(holds(line, 4, runs, rest))
        .compared(holds(line, 5, accesses, rest))
        .compared(holds(line, 6, edges, rest))
}

pub(crate) fn listing_line(line: &[u64], report: Report) -> Report {
    let mut run_room: [u32; 65] = [7; 65];
    let mut access_room: [u32; 4097] = [7; 4097];
    let mut edge_room: [u32; 4033] = [7; 4033];
    let runs = first(&mut run_room, number(line, 1, 0));
    let accesses = first(&mut access_room, number(line, 1, 1));
    let edges = first(&mut edge_room, number(line, 1, 2));
    let size = expanded(line, runs, accesses, edges);
    say_size(size);
    compare(line, size, runs, accesses, edges, report)
}
