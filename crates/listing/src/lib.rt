// Loops and branches as the compiler lists them, expanded into a graph: document 02, request 8/13.
#![tactic(auto)]

mod emitting;

ghost use Rattle.std.specs.Prelude.{◌≡◌, length, Ok};
ghost use Rattle.rules.specs.Answers.{first};
ghost use Rattle.listing_form.specs.Reading.{listing_of};
ghost use Rattle.listing.specs.Call.{listing_reasons, after_expanding};

use crate::emitting::{Standing, write_sequence};
use listing_form::count_listing;
use rules::Refusal;

// How many nodes, accesses and edges the graph has.
#[derive(Clone, Copy)]
pub struct GraphSize {
    pub nodes: usize,
    pub accesses: usize,
    pub edges: usize,
}

// The first reason to refuse, with room for so many run lengths, accesses and numbers of edges.
fn judge(tokens: &[u32], runs: usize, accesses: usize, edges: usize) -> Result<(), Refusal>
    ensures { result ≡ first (listing_reasons (listing_of tokens.now) runs accesses edges) }
{
    if runs < 64 {
        return Err(Refusal::ListingRoom);
    }
    if accesses < 4096 {
        return Err(Refusal::ListingRoom);
    }
    if edges < 4032 {
        return Err(Refusal::ListingRoom);
    }
    let Some(size) = count_listing(tokens) else {
        return Err(Refusal::Listing);
    };
    if 63 < size.nodes {
        return Err(Refusal::Expansion);
    }
    if 4096 < size.accesses {
        return Err(Refusal::Expansion);
    }
    Ok(())
}

// The graph is written to the front of cleared rooms: nothing is refused.
fn write_graph(
    tokens: &[u32],
    runs: &mut [u32],
    accesses: &mut [u32],
    edges: &mut [u32],
) -> GraphSize
    requires { Ok tt ≡ first (listing_reasons (listing_of tokens.now) (length runs.old) (length accesses.old) (length edges.old)) }
    ensures { record { answer = Ok result; runs = runs.new; accesses = accesses.new; edges = edges.new } ≡ after_expanding tokens.now runs.old accesses.old edges.old }
{
    runs.fill(0);
    accesses.fill(0);
    edges.fill(0);
    let start = Standing {
        nodes: 1,
        accesses: 0,
        edges: 0,
        run: 0,
    };
    let end = write_sequence(tokens, 0, start, runs, accesses, edges);
    let all = end.standing;
    GraphSize {
        nodes: all.nodes,
        accesses: all.accesses,
        edges: all.edges,
    }
}

// The graph of a listing: the run lengths, the accesses and the edges go to the front of their rooms, which have to have room for 64, 4,096 and 2,016 (two
// numbers each), and what is behind them becomes zero. A refusal changes nothing.
pub fn expand(
    tokens: &[u32],
    runs: &mut [u32],
    accesses: &mut [u32],
    edges: &mut [u32],
) -> Result<GraphSize, Refusal>
    ensures { record { answer = result; runs = runs.new; accesses = accesses.new; edges = edges.new } ≡ after_expanding tokens.now runs.old accesses.old edges.old }
{
    judge(tokens, runs.len(), accesses.len(), edges.len())?;
    Ok(write_graph(tokens, runs, accesses, edges))
}
