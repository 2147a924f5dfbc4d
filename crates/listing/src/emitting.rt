// The second pass: the graph is written. The tokens are of the form and there is room for all of it.
ghost use Rattle.std.specs.Prelude.{◌≡◌, ◌+◌, ◌≤◌, ◌&&◌, eqb, length};
ghost use Rattle.listing_form.specs.Reading.{listing_in};
ghost use Rattle.listing.specs.Expansion.{times};
ghost use Rattle.listing.specs.Writing.{rooms_of, edge_written, arm_opened, join_opened, written, AccessFits, AccessPut, Fits, EdgesPut, Opened, sequence_at, item_at, branch_at, loop_at, Ready, ArmReady, RoundsReady, Wrote};

use listing_form::begins_item;

// How many nodes, accesses and edges are written; how many accesses the open node has.
#[derive(Clone, Copy)]
pub(crate) struct Standing {
    pub(crate) nodes: usize,
    pub(crate) accesses: usize,
    pub(crate) edges: usize,
    pub(crate) run: usize,
}

// The place behind the tokens that are written, and how it stands then.
#[derive(Clone, Copy)]
pub(crate) struct Passed {
    pub(crate) at: usize,
    pub(crate) standing: Standing,
}

// An access to a block: it goes to the end of the open node's run.
fn write_access(s: Standing, block: u32, runs: &mut [u32], accesses: &mut [u32]) -> Standing
    requires { AccessFits s.nodes s.accesses s.run (length runs.old) (length accesses.old) }
    ensures { AccessPut block s runs.old accesses.old result runs.new accesses.new }
{
    let node = s.nodes - 1;
    let many = s.accesses;
    let run = s.run + 1;
    runs[node] = run as u32;
    accesses[many] = block;
    Standing {
        nodes: s.nodes,
        accesses: many + 1,
        edges: s.edges,
        run: run,
    }
}

// An edge from a node to the one that is opened next.
fn write_edge(s: Standing, from: usize, edges: &mut [u32]) -> Standing
    requires { Fits from 1 s.nodes s.edges (length edges.old) }
    ensures { EdgesPut (edge_written from) s edges.old result edges.new }
{
    let place = s.edges * 2;
    edges[place] = from as u32;
    edges[place + 1] = s.nodes as u32;
    Standing {
        nodes: s.nodes,
        accesses: s.accesses,
        edges: s.edges + 1,
        run: s.run,
    }
}

// That node is opened.
fn open_node(s: Standing) -> Standing
    requires { s.nodes ≤ 63 }
    ensures { Opened s result }
{
    Standing {
        nodes: s.nodes + 1,
        accesses: s.accesses,
        edges: s.edges,
        run: 0,
    }
}

// An arm is opened behind a node.
fn open_arm(s: Standing, from: usize, edges: &mut [u32]) -> Standing
    requires { Fits from 1 s.nodes s.edges (length edges.old) }
    ensures { EdgesPut (arm_opened from) s edges.old result edges.new }
{
    let linked = write_edge(s, from, edges);
    open_node(linked)
}

// The node behind both arms is opened, of which the first ended with a node and the second with the open one.
fn open_join(s: Standing, first: usize, edges: &mut [u32]) -> Standing
    requires { Fits first 2 s.nodes s.edges (length edges.old) }
    ensures { EdgesPut (join_opened first) s edges.old result edges.new }
{
    let linked = write_edge(s, first, edges);
    let again = write_edge(linked, s.nodes - 1, edges);
    open_node(again)
}

// The sequence at a place: item after item, as long as they come.
#[cycle(write_arm_write_branch_write_item_write_loop_write_rounds_write_sequence)]
pub(crate) fn write_sequence(
    tokens: &[u32],
    at: usize,
    from: Standing,
    runs: &mut [u32],
    accesses: &mut [u32],
    edges: &mut [u32],
) -> Passed
    requires { Ready (sequence_at tokens.now at) at (length tokens.now) (rooms_of from runs.old accesses.old edges.old) }
    ensures { Wrote (sequence_at tokens.now at) (length tokens.now) (rooms_of from runs.old accesses.old edges.old) result.at (rooms_of result.standing runs.new accesses.new edges.new) }
{
    let mut p = Passed {
        at: at,
        standing: from,
    };
    // From item to item: each ends where its own tokens say.
    while begins_item(tokens, p.at) {
        let so_far = p.standing;
        p = write_item(tokens, p.at, so_far, runs, accesses, edges);
    }
    p
}

// The item whose first token stands at a place.
#[cycle(write_arm_write_branch_write_item_write_loop_write_rounds_write_sequence)]
fn write_item(
    tokens: &[u32],
    at: usize,
    from: Standing,
    runs: &mut [u32],
    accesses: &mut [u32],
    edges: &mut [u32],
) -> Passed
    requires { Ready (item_at tokens.now at) (at + 1) (length tokens.now) (rooms_of from runs.old accesses.old edges.old) }
    ensures { Wrote (item_at tokens.now at) (length tokens.now) (rooms_of from runs.old accesses.old edges.old) result.at (rooms_of result.standing runs.new accesses.new edges.new) }
{
    let first = tokens[at];
    if first == 1 {
        return Passed {
            at: at + 2,
            standing: write_access(from, tokens[at + 1], runs, accesses),
        };
    }
    if first == 2 {
        return write_branch(tokens, at, from, runs, accesses, edges);
    }
    write_loop(tokens, at, from, runs, accesses, edges)
}

// The branch whose first token stands at a place: its arms one after the other, both behind the node that was open before, and the node behind
// both.
#[cycle(write_arm_write_branch_write_item_write_loop_write_rounds_write_sequence)]
fn write_branch(
    tokens: &[u32],
    at: usize,
    from: Standing,
    runs: &mut [u32],
    accesses: &mut [u32],
    edges: &mut [u32],
) -> Passed
    requires { Ready (branch_at tokens.now at) (at + 1) (length tokens.now) (rooms_of from runs.old accesses.old edges.old) }
    ensures { Wrote (branch_at tokens.now at) (length tokens.now) (rooms_of from runs.old accesses.old edges.old) result.at (rooms_of result.standing runs.new accesses.new edges.new) }
{
    let before = from.nodes - 1;
    let left = write_arm(tokens, at + 1, before, from, runs, accesses, edges);
    let first = left.standing;
    let last = first.nodes - 1;
    let right = write_arm(tokens, left.at + 1, before, first, runs, accesses, edges);
    let second = right.standing;
    let behind = right.at + 1;
    Passed {
        at: behind,
        standing: open_join(second, last, edges),
    }
}

// An arm is opened behind a node, and the sequence at a place is written to it.
#[cycle(write_arm_write_branch_write_item_write_loop_write_rounds_write_sequence)]
fn write_arm(
    tokens: &[u32],
    at: usize,
    before: usize,
    from: Standing,
    runs: &mut [u32],
    accesses: &mut [u32],
    edges: &mut [u32],
) -> Passed
    requires { ArmReady tokens.now at before (rooms_of from runs.old accesses.old edges.old) }
    ensures { Wrote (sequence_at tokens.now at) (length tokens.now) (arm_opened before (rooms_of from runs.old accesses.old edges.old)) result.at (rooms_of result.standing runs.new accesses.new edges.new) }
{
    let opened = open_arm(from, before, edges);
    write_sequence(tokens, at, opened, runs, accesses, edges)
}

// The loop whose first token stands at a place: its sequence is written once for each round. Where the first round adds nothing, no other does.
#[cycle(write_arm_write_branch_write_item_write_loop_write_rounds_write_sequence)]
fn write_loop(
    tokens: &[u32],
    at: usize,
    from: Standing,
    runs: &mut [u32],
    accesses: &mut [u32],
    edges: &mut [u32],
) -> Passed
    requires { Ready (loop_at tokens.now at) (at + 1) (length tokens.now) (rooms_of from runs.old accesses.old edges.old) }
    ensures { Wrote (loop_at tokens.now at) (length tokens.now) (rooms_of from runs.old accesses.old edges.old) result.at (rooms_of result.standing runs.new accesses.new edges.new) }
{
    let count = tokens[at + 1];
    let first = write_sequence(tokens, at + 2, from, runs, accesses, edges);
    let once = first.standing;
    if same_size(from, once) {
        return Passed {
            at: first.at + 1,
            standing: once,
        };
    }
    Passed {
        at: first.at + 1,
        standing: write_rounds(tokens, at + 2, count - 1, once, runs, accesses, edges),
    }
}

// So many rounds of the sequence at a place.
#[cycle(write_arm_write_branch_write_item_write_loop_write_rounds_write_sequence)]
fn write_rounds(
    tokens: &[u32],
    at: usize,
    count: u32,
    from: Standing,
    runs: &mut [u32],
    accesses: &mut [u32],
    edges: &mut [u32],
) -> Standing
    requires { RoundsReady tokens.now at count (rooms_of from runs.old accesses.old edges.old) }
    ensures { rooms_of result runs.new accesses.new edges.new ≡ times count (written (listing_in (sequence_at tokens.now at))) (rooms_of from runs.old accesses.old edges.old) }
{
    let mut s = from;
    for round in 0..count {
        let end = write_sequence(tokens, at, s, runs, accesses, edges);
        s = end.standing;
    }
    s
}

// Whether there are as many nodes and accesses as before.
fn same_size(a: Standing, b: Standing) -> bool
    ensures { result ≡ (eqb a.nodes b.nodes && eqb a.accesses b.accesses) }
{
    if a.nodes != b.nodes {
        return false;
    }
    a.accesses == b.accesses
}
