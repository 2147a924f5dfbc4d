// Where the tables of the second analysis stand while the nodes are worked: how many are kept at a node, and which slot holds the table of each node.
#![tactic(auto)]

ghost use Rattle.std.specs.Prelude.{◌≡◌, cond, ◌&&◌, ◌++◌, ◌≤◌, eqb, leb, length, drop};
ghost use Rattle.rules.specs.Input.{edges_of};
ghost use Rattle.tight_rules.specs.Rooms.{passes, kept_below, most_kept};
ghost use Rattle.tight_slots.specs.Slots.{is_taken, free_at, slots_of, slots_in};

use basics::larger;

// Whether the edge comes from node `u` and leads to node `v` or beyond it.
fn is_passing(from: u32, to: u32, u: usize, v: usize) -> bool
    ensures { result ≡ (eqb from u && leb v to) }
{
    if from as usize == u {
        return v <= to as usize;
    }
    false
}

// 1 if an edge leads from node `u` to node `v` or beyond it, otherwise 0.
#[tactic(auto, using(graph_check::proofs::Checks::edges_next), unfolding(tight_rules::specs::Rooms::passes))]
fn passing(edges: &[u32], u: usize, v: usize) -> u64
    ensures { result ≡ cond (passes (edges_of edges.now) u v) 1 0 }
{
    for e in 0..edges.len() / 2 {
        if is_passing(edges[2 * e], edges[2 * e + 1], u, v) {
            return 1;
        }
    }
    0
}

// How many nodes before node `v` have an edge to it or beyond it.
#[tactic(auto, using(crate::proofs::Kept::kept_few), unfolding(tight_rules::specs::Rooms::kept_below))]
fn kept_at(edges: &[u32], v: usize) -> u64
    ensures { result ≡ kept_below (edges_of edges.now) v v }
{
    let mut kept: u64 = 0;
    for u in 0..v {
        kept += passing(edges, u, v);
    }
    kept
}

// The most of them over the first `n` nodes.
#[tactic(auto, unfolding(tight_rules::specs::Rooms::most_kept))]
pub fn most_kept(edges: &[u32], n: usize) -> u64
    ensures { result ≡ most_kept (edges_of edges.now) n }
{
    let mut most: u64 = 0;
    for v in 0..n {
        most = larger(most, kept_at(edges, v));
    }
    most
}

// Whether slot `slot` holds the table of node `u`, which stands in slot `own`, and node `v` or one beyond it needs that table.
fn holds(edges: &[u32], u: usize, v: usize, own: u64, slot: u64) -> bool
    ensures { result ≡ (eqb own slot && passes (edges_of edges.now) u v) }
{
    if own != slot {
        return false;
    }
    passing(edges, u, v) == 1
}

// Whether a slot holds the table of a node before node `v` that node `v` or one beyond it needs; `slots` has the slots of those nodes.
#[tactic(auto, unfolding(crate::specs::Slots::is_taken))]
fn is_taken(slots: &[u64], edges: &[u32], v: usize, slot: u64) -> bool
    requires { v ≤ length slots.now }
    ensures { result ≡ is_taken (edges_of edges.now) v slots.now v slot }
{
    for u in (0..v).rev() {
        if holds(edges, u, v, slots[u], slot) {
            return true;
        }
    }
    false
}

// The smallest slot that holds no such table.
#[tactic(auto, unfolding(crate::specs::Slots::first_free, crate::specs::Slots::free_at))]
fn free_slot(slots: &[u64], edges: &[u32], v: usize) -> u64
    requires { v ≤ length slots.now }
    ensures { result ≡ free_at (edges_of edges.now) v slots.now }
{
    let last = v as u64;
    for slot in 0..last {
        if !is_taken(slots, edges, v, slot) {
            return slot;
        }
    }
    last
}

// Each of the first `nodes` nodes has its slot, one after the other.
#[tactic(auto, using(crate::proofs::Found::none_given, crate::proofs::Found::one_given))]
fn fill_slots(slots: &mut [u64], edges: &[u32], nodes: usize)
    requires { nodes ≤ length slots.old }
    ensures { slots.new ≡ slots_of (edges_of edges.now) nodes ++ drop nodes slots.old }
{
    for v in 0..nodes {
        slots[v] = free_slot(slots, edges, v);
    }
}

// For each node the slot that holds its table, and 0 beyond the last node and for more than 64 nodes.
#[tactic(auto, using(crate::proofs::Found::too_many, crate::proofs::Found::all_given))]
pub fn table_slots(edges: &[u32], nodes: usize) -> [u64; 64]
    ensures { result ≡ slots_in (edges_of edges.now) nodes }
{
    let mut slots: [u64; 64] = [0; 64];
    if 64 < nodes {
        return slots;
    }
    fill_slots(&mut slots, edges, nodes);
    slots
}
