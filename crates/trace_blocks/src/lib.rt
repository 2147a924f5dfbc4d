// One block of the trace recorder's disk: judged, read and written. Document 02, request 7/13. What has not 512 bytes is no block.
#![tactic(auto)]

mod fields;

ghost use Rattle.std.specs.Prelude.{◌≡◌, ◌++◌, ◌+◌, ◌*◌, ◌≤◌, length, take, replicate};
ghost use Rattle.trace_blocks.specs.Blocks.{is_sound, is_block, count_of, access_of};
ghost use Rattle.trace_blocks.specs.Written.{fours_bytes, head_of, block_of, block_put};

use crate::fields::{all_zero, four_at, pair_at, put_four, put_pair, weigh};

// Whether the 512 bytes of a block at this place are not damaged.
fn bytes_sound(block: &[u8], place: usize) -> bool
    requires { length block.now ≡ 512 }
    ensures { result ≡ is_sound place block.now }
{
    if four_at(block, 0) as usize != place {
        return false;
    }
    let count = pair_at(block, 4);
    if 125 < count {
        return false;
    }
    if !all_zero(&block[6 + count * 4..510]) {
        return false;
    }
    pair_at(block, 510) == weigh(&block[0..510]) % 65521
}

// Whether it is a block, and at this place not damaged.
pub fn is_sound(block: &[u8], place: usize) -> bool
    ensures { result ≡ is_block place block.now }
{
    if block.len() != 512 {
        return false;
    }
    bytes_sound(block, place)
}

// How many accesses a block counts; what is no block counts none.
pub fn count_in(block: &[u8]) -> usize
    ensures { result ≡ count_of block.now }
{
    if block.len() != 512 {
        return 0;
    }
    pair_at(block, 4)
}

// The access at place `i` of a block, which has 125 places; 0 where there is none.
pub fn access_in(block: &[u8], i: usize) -> u32
    ensures { result ≡ access_of block.now i }
{
    if block.len() != 512 {
        return 0;
    }
    if 125 <= i {
        return 0;
    }
    four_at(block, 6 + i * 4)
}

// The accesses, four bytes each, from place 6 on.
fn put_accesses(accesses: &[u32], block: &mut [u8])
    requires { (length accesses.now ≤ 125) × (length block.old ≡ 512) }
    ensures { take (6 + length accesses.now * 4) block.new ≡ take 6 block.old ++ fours_bytes accesses.now }
{
    for (i, access) in accesses.iter().enumerate() {
        put_four(block, 6 + i * 4, *access);
    }
}

// Bytes 0 to 509 of the block of this number with at most 125 accesses.
fn write_head(accesses: &[u32], number: u32, block: &mut [u8])
    requires { (length accesses.now ≤ 125) × (length block.old ≡ 512) }
    ensures { take 510 block.new ≡ head_of number accesses.now }
{
    put_four(block, 0, number);
    put_pair(block, 4, accesses.len());
    put_accesses(accesses, block);
    block[6 + accesses.len() * 4..].fill(0);
}

// The whole block: behind them the check.
fn fill_block(accesses: &[u32], number: u32, block: &mut [u8])
    requires { (length accesses.now ≤ 125) × (length block.old ≡ 512) }
    ensures { block.new ≡ block_of number accesses.now }
{
    write_head(accesses, number, block);
    let check = weigh(&block[0..510]) % 65521;
    put_pair(block, 510, check);
}

// The block of this number with at most 125 accesses, in a room of 512 bytes; otherwise the room is left as it is.
pub fn write_block(accesses: &[u32], number: u32, block: &mut [u8])
    ensures { block.new ≡ block_put number accesses.now block.old }
{
    if block.len() != 512 {
        return;
    }
    if 125 < accesses.len() {
        return;
    }
    fill_block(accesses, number, block);
}
