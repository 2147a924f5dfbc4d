// The form of a listing, document 02, request 8/13: whether tokens are of it, and how many nodes and accesses they add. Nothing is written.
#![tactic(auto)]

ghost use Rattle.std.specs.Prelude.{◌≡◌, not, ◌&&◌, ◌||◌, ℕ, suc, ◌+◌, ◌*◌, ◌≤◌, ◌<◌, eqb, length, get_or, drop};
ghost use Rattle.listing_form.specs.Reading.{kind_of, an_access, a_branch, a_loop, item, sequence_in, listing_of};
ghost use Rattle.listing_form.specs.Counting.{capped, begins_item, behind, count_of};

// The place behind what was read, and how many nodes and accesses it adds: at most 4,097 of each are counted.
#[derive(Clone, Copy)]
pub struct Size {
    pub at: usize,
    pub nodes: u64,
    pub accesses: u64,
}

// The token at a place; past the end there is none, and 0 stands for it.
fn token(tokens: &[u32], at: usize) -> u32
    ensures { result ≡ get_or tokens.now at 0 }
{
    if at < tokens.len() {
        return tokens[at];
    }
    0
}

// Whether the token at a place begins an item.
pub fn begins_item(tokens: &[u32], at: usize) -> bool
    ensures { result ≡ begins_item (kind_of (get_or tokens.now at 0)) }
{
    let first = token(tokens, at);
    if first == 1 {
        return true;
    }
    if first == 2 {
        return true;
    }
    first == 5
}

// The sum, which stops at 4,097.
fn sum(a: u64, b: u64) -> u64
    ensures { result ≡ capped (a + b) }
{
    if 4097 <= a {
        return 4097;
    }
    if 4097 - a <= b {
        return 4097;
    }
    a + b
}

// The product, which stops at 4,097.
fn product(n: u32, a: u64) -> u64
    ensures { result ≡ capped (n * a) }
{
    if n == 0 {
        return 0;
    }
    if 4097 <= a {
        return 4097;
    }
    let all = n as u64 * a;
    if 4097 <= all {
        return 4097;
    }
    all
}

// One thing read, and another behind it.
fn both(a: Size, b: Size) -> Size
    ensures { result ≡ behind a b }
{
    Size {
        at: b.at,
        nodes: sum(a.nodes, b.nodes),
        accesses: sum(a.accesses, b.accesses),
    }
}

// An access: its block has to follow.
fn count_access(tokens: &[u32], at: usize) -> Option<Size>
    requires { at < length tokens.now }
    ensures { result ≡ count_of (length tokens.now) (item sequence_in 0 an_access (drop (at + 1) tokens.now)) }
{
    if tokens.len() - at < 2 {
        return None;
    }
    Some(Size {
        at: at + 2,
        nodes: 0,
        accesses: 1,
    })
}

// The sequence from a place on, in which branches and loops may nest so deep: item after item, as long as they come.
#[cycle(count_branch_count_item_count_loop_count_sequence)]
fn count_sequence(tokens: &[u32], at: usize, depth: usize) -> Option<Size>
    requires { at ≤ length tokens.now }
    ensures { result ≡ count_of (length tokens.now) (sequence_in depth (drop at tokens.now)) }
{
    let mut so_far = Size {
        at: at,
        nodes: 0,
        accesses: 0,
    };
    // From item to item: each ends where its own tokens say.
    while begins_item(tokens, so_far.at) {
        let next = count_item(tokens, so_far.at, depth)?;
        so_far = both(so_far, next);
    }
    Some(so_far)
}

// The item at a place, in which branches and loops may nest so deep, itself counted.
#[cycle(count_branch_count_item_count_loop_count_sequence)]
fn count_item(tokens: &[u32], at: usize, depth: usize) -> Option<Size>
    requires { at < length tokens.now }
    ensures { result ≡ count_of (length tokens.now) (item sequence_in depth (kind_of (get_or tokens.now at 0)) (drop (at + 1) tokens.now)) }
{
    let first = tokens[at];
    if first == 1 {
        return count_access(tokens, at);
    }
    if depth == 0 {
        return None;
    }
    if first == 2 {
        return count_branch(tokens, at + 1, depth - 1);
    }
    if first == 5 {
        return count_loop(tokens, at + 1, depth - 1);
    }
    None
}

// A branch, from behind its first token on: two arms, each closed by its token. It opens three nodes more than they do.
#[cycle(count_branch_count_item_count_loop_count_sequence)]
fn count_branch(tokens: &[u32], at: usize, depth: usize) -> Option<Size>
    requires { at ≤ length tokens.now }
    ensures { result ≡ count_of (length tokens.now) (item sequence_in (suc depth) a_branch (drop at tokens.now)) }
{
    let left = count_sequence(tokens, at, depth)?;
    if token(tokens, left.at) != 3 {
        return None;
    }
    let right = count_sequence(tokens, left.at + 1, depth)?;
    if token(tokens, right.at) != 4 {
        return None;
    }
    Some(Size {
        at: right.at + 1,
        nodes: sum(sum(left.nodes, right.nodes), 3),
        accesses: sum(left.accesses, right.accesses),
    })
}

// A loop, from behind its first token on: a count from 1 to 64 and a sequence, closed by its token. It adds so many times what the sequence adds.
#[cycle(count_branch_count_item_count_loop_count_sequence)]
fn count_loop(tokens: &[u32], at: usize, depth: usize) -> Option<Size>
    requires { at ≤ length tokens.now }
    ensures { result ≡ count_of (length tokens.now) (item sequence_in (suc depth) a_loop (drop at tokens.now)) }
{
    let count = token(tokens, at);
    if count < 1 {
        return None;
    }
    if 64 < count {
        return None;
    }
    let body = count_sequence(tokens, at + 1, depth)?;
    if token(tokens, body.at) != 6 {
        return None;
    }
    Some(Size {
        at: body.at + 1,
        nodes: product(count, body.nodes),
        accesses: product(count, body.accesses),
    })
}

// A listing: one sequence, 8 deep at most, and nothing behind it.
pub fn count_listing(tokens: &[u32]) -> Option<Size>
    ensures { result ≡ count_of (length tokens.now) (listing_of tokens.now) }
{
    let size = count_sequence(tokens, 0, 8)?;
    if size.at != tokens.len() {
        return None;
    }
    Some(size)
}
