// What the code of the two tables has in common where no state enters: contents as masks, what an access is after, the fewer of two units, and the edges into a node. What is the
// same for any kind of state can only be said once in laws: `proofs` has those, and `estimate` and `best` cite them.
#![tactic(auto)]

ghost use Rattle.std.specs.Prelude.{◌≡◌, true, cond, ◌&&◌, ◌≤◌, ◌<◌, ◌%◌, min, eqb, leb, length, Some};
ghost use Rattle.rules.specs.Contents.{among, bit, find, has, is_last, size, with, without, of_set};
ghost use Rattle.rules.specs.Refusals.{set_counts};
ghost use Rattle.tables.specs.Aim.{in_word, aimed_at};
ghost use Rattle.tables.specs.Edges.{next_edge};
ghost use Rattle.tables.specs.Following.{next_held, top_held};

use graph_check::is_set_count;
use rules::{Target, Units};

// Whether the block at place `at` is held; a mask has 64 places.
pub fn has_place(mask: u64, at: usize) -> bool
    ensures { result ≡ bit mask (at % 64) }
{
    (mask >> (at % 64)) % 2 == 1
}

// The contents with the block at place `at`.
fn with_place(mask: u64, at: usize) -> u64
    ensures { result ≡ with mask (Some (at % 64)) }
{
    mask | (1 << (at % 64))
}

// The contents without the block at place `at`, which they hold.
pub fn without_place(mask: u64, at: usize) -> u64
    ensures { result ≡ without mask (at % 64) }
{
    mask ^ (1 << (at % 64))
}

// The next place from `at` on whose block is held, of sixteen: 16 where there is none.
pub fn next_place(mask: u64, at: usize) -> usize
    ensures { result ≡ next_held mask at }
{
    if 16 <= at {
        return at;
    }
    at + u64::trailing_zeros((mask | 65536) >> at) as usize
}

// The highest of the 64 places of a mask whose block is held; 0 where there is none.
pub fn highest_place(mask: u64) -> usize
    ensures { result ≡ top_held 64 mask }
{
    63 - u64::leading_zeros(mask | 1) as usize
}

// How many blocks are held.
pub fn size_of(mask: u64) -> u64
    ensures { result ≡ size mask }
{
    u64::count_ones(mask % 65536) as u64
}

// Whether the block that was looked up is surely held: an untracked one where it was accessed directly before.
pub fn has_block(mask: u64, again: bool, x: Option<usize>) -> bool
    ensures { result ≡ has mask again (in_word x) }
{
    match x {
        Some(i) => has_place(mask, i),
        None => again,
    }
}

// The contents with the block that was looked up: an untracked one adds nothing.
pub fn with_block(mask: u64, x: Option<usize>) -> u64
    ensures { result ≡ with mask (in_word x) }
{
    match x {
        Some(i) => with_place(mask, i),
        None => mask,
    }
}

// Where a block stands in the list of tracked blocks.
fn look_up(tracked: &[u32], block: u32) -> Option<usize>
    ensures { result ≡ find tracked.now block }
{
    match tracked.iter().position(|known| *known == block) {
        Some(i) => Some(i),
        None => None,
    }
}

// 1 if the block belongs to set `set` of `sets`, otherwise 0: the set count is a power of two, so that the low bits tell.
fn in_set(block: u32, sets: u32, set: u32) -> u64
    requires { among set_counts sets ≡ true }
    ensures { result ≡ cond (eqb (block % sets) set) 1 0 }
{
    if block & (sets - 1) == set {
        return 1;
    }
    0
}

// The tracked blocks of set `set` of `sets`, from the last one on: all, where there is one set only.
fn mates_of(tracked: &[u32], sets: u32, set: u32) -> u64
    requires { (length tracked.now ≤ 16) × (among set_counts sets ≡ true) × (set < sets) }
    ensures { result ≡ of_set sets tracked.now set }
{
    if sets == 1 {
        return (1 << tracked.len()) - 1;
    }
    let mut mask: u64 = 0;
    for i in (0..tracked.len()).rev() {
        mask = mask * 2 + in_set(tracked[i], sets, set);
    }
    mask
}

// Whether `block` was accessed directly before.
pub fn is_last(last: Option<u32>, block: u32) -> bool
    ensures { result ≡ is_last last block }
{
    match last {
        None => false,
        Some(before) => before == block,
    }
}

// Whether there are so many tracked blocks and sets.
fn in_range(tracked: usize, sets: u32) -> bool
    ensures { result ≡ (leb tracked 16 && among set_counts sets) }
{
    if 16 < tracked {
        return false;
    }
    is_set_count(sets)
}

// What an access to `block` is after, where `last` was accessed directly before.
pub fn aim(tracked: &[u32], sets: u32, last: Option<u32>, block: u32) -> Target
    ensures { result ≡ aimed_at sets tracked.now last block }
{
    if in_range(tracked.len(), sets) {
        let set = block & (sets - 1);
        return Target {
            place: look_up(tracked, block),
            again: is_last(last, block),
            set,
            mates: mates_of(tracked, sets, set),
        };
    }
    Target {
        place: None,
        again: false,
        set: 0,
        mates: 0,
    }
}

// The fewer units.
pub fn smaller(a: Units, b: Units) -> Units
    ensures { result.0 ≡ min a.0 b.0 }
{
    if b.0 < a.0 {
        return b;
    }
    a
}

// Where the next edge into node `to` stands, from place `start` of the list on; the list's end if there is none.
pub fn next_edge(edges: &[u32], to: usize, start: usize) -> usize
    ensures { result ≡ next_edge edges.now to start }
{
    if edges.len() < start {
        return edges.len();
    }
    let mut e: usize = start;
    // Kept as a while: the answer is a place in the flat list, and chunks of two would have to be told from where, and turned back into places.
    while e + 1 < edges.len() {
        if edges[e + 1] as usize == to {
            return e;
        }
        e += 2;
    }
    edges.len()
}
