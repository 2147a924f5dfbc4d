// When the second analysis says no, and how much working room it is to be lent.
#![tactic(auto)]

ghost use Rattle.std.specs.Prelude.{◌≡◌, cond, ◌||◌};
ghost use Rattle.rules.specs.Answers.{first};
ghost use Rattle.rules.specs.Refusals.{outside};
ghost use Rattle.tight_rules.specs.Asked.{asked_in};
ghost use Rattle.tight_rules.specs.Refusals.{before_rooms, verdict, room_answer};

use crate::rooms::words_needed;
use refusals::judge;
use rules::{Cache, Refusal};

mod rooms;

// A limit for document 01's call, which it refuses exactly where these limits are refused.
fn limit_for(contents: u32, cells: u32) -> u32
    ensures { result ≡ cond (outside 1 4096 contents || outside 2 4098 cells) 0 1 }
{
    if contents < 1 {
        return 0;
    }
    if 4096 < contents {
        return 0;
    }
    if cells < 2 {
        return 0;
    }
    if 4098 < cells {
        return 0;
    }
    1
}

// The first reason that applies but for the rooms: document 01's call has the same ones, and is handed rooms that it accepts.
fn judge_graph(
    cache: Cache,
    contents: u32,
    cells: u32,
    tracked: &[u32],
    runs: &[u32],
    accesses: &[u32],
    edges: &[u32],
) -> Result<(), Refusal>
    ensures { result ≡ first (before_rooms (asked_in cache contents cells tracked.now runs.now accesses.now edges.now 0 0)) }
{
    let limit = limit_for(contents, cells);
    judge(cache, limit, tracked, runs, accesses, edges, 1, 5184)
}

// The words of working room that the call needs; 0 where it is refused whatever the room.
pub fn room_needed(
    cache: Cache,
    contents: u32,
    cells: u32,
    tracked: &[u32],
    runs: &[u32],
    accesses: &[u32],
    edges: &[u32],
) -> u64
    ensures { result ≡ room_answer (asked_in cache contents cells tracked.now runs.now accesses.now edges.now 0 0) }
{
    match judge_graph(cache, contents, cells, tracked, runs, accesses, edges) {
        Err(_) => 0,
        Ok(()) => words_needed(
            contents as u64,
            cells as u64,
            tracked,
            runs,
            accesses,
            edges,
        ),
    }
}

// The first reason that applies, in their order. `result_room` are cells, `working_room` words.
pub fn judge_tight(
    cache: Cache,
    contents: u32,
    cells: u32,
    tracked: &[u32],
    runs: &[u32],
    accesses: &[u32],
    edges: &[u32],
    result_room: usize,
    working_room: usize,
) -> Result<(), Refusal>
    ensures { result ≡ verdict (asked_in cache contents cells tracked.now runs.now accesses.now edges.now result_room working_room) }
{
    judge_graph(cache, contents, cells, tracked, runs, accesses, edges)?;
    if result_room <= accesses.len() {
        return Err(Refusal::Room);
    }
    if (working_room as u64)
        < words_needed(
            contents as u64,
            cells as u64,
            tracked,
            runs,
            accesses,
            edges,
        )
    {
        return Err(Refusal::Room);
    }
    Ok(())
}
