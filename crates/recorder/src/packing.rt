// A run of accesses written: block behind block.
ghost use Rattle.std.specs.Prelude.{◌≡◌, ◌++◌, ◌+◌, ◌*◌, ◌≤◌, min, length, take};
ghost use Rattle.trace_blocks.specs.Written.{block_of};
ghost use Rattle.recorder.specs.Written.{blocks_for, trace_of};

use trace_blocks::write_block;

// The block at place `at` of `trace` and on.
fn write_at(accesses: &[u32], number: u32, trace: &mut [u8], at: usize)
    requires { (length accesses.now ≤ 125) × (at + 512 ≤ length trace.old) }
    ensures { take (at + 512) trace.new ≡ take at trace.old ++ block_of number accesses.now }
{
    write_block(accesses, number, &mut trace[at..at + 512]);
}

// Where the accesses of a block end that begin at `from`: 125 further, or with the last one.
fn block_end(from: usize, len: usize) -> usize
    requires { from ≤ len }
    ensures { result ≡ min (from + 125) len }
{
    if len - from < 125 {
        return len;
    }
    from + 125
}

// The trace of the accesses, at the front of `trace`.
pub(crate) fn write_all(accesses: &[u32], trace: &mut [u8])
    requires { (length accesses.now ≤ 4096) × (blocks_for (length accesses.now) * 512 ≤ length trace.old) }
    ensures { take (blocks_for (length accesses.now) * 512) trace.new ≡ trace_of accesses.now }
{
    for k in 0..(accesses.len() + 124) / 125 {
        let end = block_end(k * 125, accesses.len());
        write_at(&accesses[k * 125..end], k as u32, trace, k * 512);
    }
}
