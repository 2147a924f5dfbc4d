// Runs on the trace recorder's disk: a trace is read, its damaged blocks are listed, a run of accesses is written. Document 02, request 7/13.
#![tactic(auto)]

ghost use Rattle.std.specs.Prelude.{◌≡◌};
ghost use Rattle.recorder.specs.Calls.{trace_read, trace_listed, trace_written};

use crate::damage::list_all;
use crate::packing::write_all;
use blocks::first_damaged;
use copying::copy_all;
use rules::Refusal;

mod blocks;
mod copying;
mod damage;
mod packing;

// What reading finds: how many accesses the trace says, or the place of its first damaged block.
#[derive(Clone, Copy)]
pub enum Reading {
    Accesses(usize),
    Damaged(usize),
}

// The accesses of `trace` go to the front of `accesses`, which has to have room for 125 a block, and what is behind them becomes zero.
pub fn read_trace(trace: &[u8], accesses: &mut [u32]) -> Result<Reading, Refusal>
    ensures { record { answer = result; room = accesses.new } ≡ trace_read trace.now accesses.old }
{
    if trace.len() % 512 != 0 {
        return Err(Refusal::TraceLength);
    }
    let blocks = trace.len() / 512;
    if accesses.len() < blocks * 125 {
        return Err(Refusal::TraceRoom);
    }
    let first = first_damaged(trace);
    if first < blocks {
        return Ok(Reading::Damaged(first));
    }
    let count = copy_all(trace, accesses);
    accesses[count..].fill(0);
    Ok(Reading::Accesses(count))
}

// The places of the damaged blocks of `trace`, rising, go to the front of `places`, which has to have room for one a block, and what is behind
// them becomes zero; how many they are.
pub fn list_damaged(trace: &[u8], places: &mut [u64]) -> Result<usize, Refusal>
    ensures { record { answer = result; room = places.new } ≡ trace_listed trace.now places.old }
{
    if trace.len() % 512 != 0 {
        return Err(Refusal::TraceLength);
    }
    if places.len() < trace.len() / 512 {
        return Err(Refusal::TraceRoom);
    }
    let count = list_all(trace, places);
    places[count..].fill(0);
    Ok(count)
}

// The trace of at most 4,096 accesses goes to the front of `trace`, and what is behind it becomes zero; how many blocks it has.
pub fn write_trace(accesses: &[u32], trace: &mut [u8]) -> Result<usize, Refusal>
    ensures { record { answer = result; room = trace.new } ≡ trace_written accesses.now trace.old }
{
    if 4096 < accesses.len() {
        return Err(Refusal::Accesses);
    }
    let blocks = (accesses.len() + 124) / 125;
    if trace.len() < blocks * 512 {
        return Err(Refusal::TraceRoom);
    }
    write_all(accesses, trace);
    trace[blocks * 512..].fill(0);
    Ok(blocks)
}
