// From the text of a listing to the curve program's input: the listing expanded, and the lines that its graph gives, in rooms that the caller lends.
#![tactic(auto)]

ghost use Rattle.std.specs.Prelude.{◌≡◌, true, ◌∷◌, ◌+◌, ◌-◌, ◌*◌, ◌≤◌, ◌<◌, min, length, get_or, take, drop};
ghost use Rattle.listing.specs.Call.{after_expanding};
ghost use Rattle.writing.specs.Put.{Put};
ghost use Rattle.writing.specs.Writing.{numbers_line};
ghost use Rattle.graphs.specs.Listings.{input_lines, listing_of_numbers, listing_of_text, numbers_expanded, text_expanded};
ghost use Rattle.graphs.specs.GraphRooms.{room_for_graph, GraphWrote, after_listing};

use curve_numbers::end_of;
use listing::{GraphSize, expand};
use reading::read_numbers;
use rules::Refusal;
use writing::{put_entry, put_numbers_line, put_refused};

// The curve program's input for the text of a listing, at the front of `output`. What was worked in is zero then; a refusal, which is a line too, leaves it as it was
// but for `numbers`, which is zero. Long enough are 16,384 numbers, 64 run lengths, 4,096 accesses, 4,032 numbers of edges, and an output of 262,144 bytes.
pub fn graph_of_text(
    text: &[u8],
    numbers: &mut [u32],
    runs: &mut [u32],
    accesses: &mut [u32],
    edges: &mut [u32],
    output: &mut [u8],
) -> Option<usize>
    ensures { record { answer = result; numbers = numbers.new; rooms = record { runs = runs.new; accesses = accesses.new; edges = edges.new; output = output.new } } ≡ after_listing text.now numbers.old (record { runs = runs.old; accesses = accesses.old; edges = edges.old; output = output.old }) }
{
    if !room_for_graph(
        numbers.len(),
        runs.len(),
        accesses.len(),
        edges.len(),
        output.len(),
    ) {
        return None;
    }
    let end = put_listed_text(text, numbers, runs, accesses, edges, output);
    numbers.fill(0);
    Some(end)
}

// Whether rooms of so many numbers and bytes are long enough.
fn room_for_graph(numbers: usize, runs: usize, accesses: usize, edges: usize, output: usize) -> bool
    ensures { result ≡ room_for_graph numbers runs accesses edges output }
{
    if numbers < 16384 {
        return false;
    }
    if runs < 64 {
        return false;
    }
    if accesses < 4096 {
        return false;
    }
    if edges < 4032 {
        return false;
    }
    262144 <= output
}

// The curve program's input for a listing's text, or the line of a refusal.
fn put_listed_text(
    text: &[u8],
    numbers: &mut [u32],
    runs: &mut [u32],
    accesses: &mut [u32],
    edges: &mut [u32],
    output: &mut [u8],
) -> usize
    requires { (16384 ≤ length numbers.old) × (64 ≤ length runs.old) × (4096 ≤ length accesses.old) × (4032 ≤ length edges.old) }
    ensures { GraphWrote (text_expanded text.now) (listing_of_text text.now) result (record { runs = runs.old; accesses = accesses.old; edges = edges.old; output = output.old }) (record { runs = runs.new; accesses = accesses.new; edges = edges.new; output = output.new }) }
{
    match read_numbers(text, numbers) {
        None => put_refused(output, 9),
        Some(n) => put_listed(&numbers[..n], runs, accesses, edges, output),
    }
}

// The curve program's input for the numbers of a listing's text, or the line of a refusal, which leaves the rooms that are worked in as they were.
fn put_listed(
    numbers: &[u32],
    runs: &mut [u32],
    accesses: &mut [u32],
    edges: &mut [u32],
    output: &mut [u8],
) -> usize
    requires { (64 ≤ length runs.old) × (4096 ≤ length accesses.old) × (4032 ≤ length edges.old) }
    ensures { GraphWrote (numbers_expanded numbers.now) (listing_of_numbers numbers.now) result (record { runs = runs.old; accesses = accesses.old; edges = edges.old; output = output.old }) (record { runs = runs.new; accesses = accesses.new; edges = edges.new; output = output.new }) }
{
    let first = end_of(numbers, 2, 1);
    if end_of(numbers, first, 1) != numbers.len() {
        return put_refused(output, 9);
    }
    match expand_from(numbers, first, runs, accesses, edges) {
        Err(why) => put_refused(output, why.number()),
        Ok(size) => put_expanded(numbers, first, size, runs, accesses, edges, output),
    }
}

// The tokens behind place `first` of the numbers, expanded.
fn expand_from(
    numbers: &[u32],
    first: usize,
    runs: &mut [u32],
    accesses: &mut [u32],
    edges: &mut [u32],
) -> Result<GraphSize, Refusal>
    requires { first < length numbers.now }
    ensures { record { answer = result; runs = runs.new; accesses = accesses.new; edges = edges.new } ≡ after_expanding (take (length numbers.now - (first + 1)) (drop (first + 1) numbers.now)) runs.old accesses.old edges.old }
{
    expand(&numbers[first + 1..], runs, accesses, edges)
}

// The curve program's input for the graph at the front of the rooms, with the tracked blocks that end at place `first`; and then the rooms are cleared.
fn put_expanded(
    numbers: &[u32],
    first: usize,
    size: GraphSize,
    runs: &mut [u32],
    accesses: &mut [u32],
    edges: &mut [u32],
    output: &mut [u8],
) -> usize
    requires { (3 ≤ first) × (first ≤ length numbers.now) × (size.nodes ≤ length runs.old) × (size.accesses ≤ length accesses.old) × (size.edges * 2 ≤ length edges.old) }
    ensures { GraphWrote true (input_lines (get_or numbers.now 0 0) (get_or numbers.now 1 0) (take (min 20 first - 3) (drop 3 numbers.now)) (take size.nodes runs.old) (take size.accesses accesses.old) (take (size.edges * 2) edges.old)) result (record { runs = runs.old; accesses = accesses.old; edges = edges.old; output = output.old }) (record { runs = runs.new; accesses = accesses.new; edges = edges.new; output = output.new }) }
{
    let last = last_shown(first);
    let end = put_graph(
        numbers,
        last,
        &runs[..size.nodes],
        &accesses[..size.accesses],
        &edges[..size.edges * 2],
        output,
    );
    runs.fill(0);
    accesses.fill(0);
    edges.fill(0);
    end
}

// Where the tracked blocks end that are written, of those that begin at place 3 and end at place `end`: 17 at most.
fn last_shown(end: usize) -> usize
    ensures { result ≡ min 20 end }
{
    if 20 < end {
        return 20;
    }
    end
}

// The curve program's input for a graph, with the ways, the state limit and the tracked blocks of the numbers, which end at place `end`.
fn put_graph(
    numbers: &[u32],
    end: usize,
    runs: &[u32],
    accesses: &[u32],
    edges: &[u32],
    output: &mut [u8],
) -> usize
    requires { (3 ≤ end) × (end ≤ length numbers.now) }
    ensures { Put (input_lines (get_or numbers.now 0 0) (get_or numbers.now 1 0) (take (end - 3) (drop 3 numbers.now)) runs.now accesses.now edges.now) 0 result output.old output.new }
{
    put_input(
        output,
        numbers[0],
        numbers[1],
        &numbers[3..end],
        runs,
        accesses,
        edges,
    )
}

// The curve program's input.
fn put_input(
    room: &mut [u8],
    ways: u32,
    limit: u32,
    tracked: &[u32],
    runs: &[u32],
    accesses: &[u32],
    edges: &[u32],
) -> usize
    ensures { Put (input_lines ways limit tracked.now runs.now accesses.now edges.now) 0 result room.old room.new }
{
    let limits = [limit];
    let head = put_row(room, 0, ways as u64, &limits);
    let blocks = put_row(room, head, tracked.len() as u64, tracked);
    let nodes = put_row(room, blocks, runs.len() as u64, runs);
    let all = put_row(room, nodes, accesses.len() as u64, accesses);
    put_row(room, all, edges.len() as u64 / 2, edges)
}

// A line of numbers: `first`, and the others behind it.
fn put_row(room: &mut [u8], at: usize, first: u64, numbers: &[u32]) -> usize
    ensures { Put (numbers_line (first ∷ numbers.now)) at result room.old room.new }
{
    let begun = put_entry(room, at, first, numbers.len() == 0);
    put_numbers_line(room, begun, numbers)
}
