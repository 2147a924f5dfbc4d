// Numbers in bytes, the lowest byte first; bytes weighed; bytes looked at whether all are zero.
ghost use Rattle.std.specs.Prelude.{◌≡◌, ◌++◌, ◌+◌, ◌*◌, ◌≤◌, ◌<◌, length, take};
ghost use Rattle.trace_blocks.specs.Blocks.{pair_at, four_at, weighed, all_zero};
ghost use Rattle.trace_blocks.specs.Written.{pair_bytes, four_bytes};

// The number of two bytes at place `at`.
#[tactic(auto, unfolding(crate::specs::Blocks::pair_at))]
pub(crate) fn pair_at(block: &[u8], at: usize) -> usize
    requires { at + 2 ≤ length block.now }
    ensures { result ≡ pair_at block.now at }
{
    u16::from_le_bytes([block[at], block[at + 1]]) as usize
}

// The number of four bytes at place `at`.
#[tactic(auto, unfolding(crate::specs::Blocks::four_at))]
pub(crate) fn four_at(block: &[u8], at: usize) -> u32
    requires { at + 4 ≤ length block.now }
    ensures { result ≡ four_at block.now at }
{
    u32::from_le_bytes([block[at], block[at + 1], block[at + 2], block[at + 3]])
}

// `x` as two bytes, at place `at`.
pub(crate) fn put_pair(block: &mut [u8], at: usize, x: usize)
    requires { (at + 2 ≤ length block.old) × (x < 65536) }
    ensures { take (at + 2) block.new ≡ take at block.old ++ pair_bytes x }
{
    block[at..at + 2].copy_from_slice(&(x as u16).to_le_bytes());
}

// `x` as four bytes, at place `at`.
pub(crate) fn put_four(block: &mut [u8], at: usize, x: u32)
    requires { at + 4 ≤ length block.old }
    ensures { take (at + 4) block.new ≡ take at block.old ++ four_bytes x }
{
    block[at..at + 4].copy_from_slice(&x.to_le_bytes());
}

// A byte times its weight.
fn weighed_byte(byte: u8, weight: usize) -> usize
    requires { weight ≤ 510 }
    ensures { (result ≡ weight * byte) × (result ≤ 130050) }
{
    weight * byte as usize
}

// The sum of the bytes, each times its weight: 1 for the first, one more for each one behind it.
pub(crate) fn weigh(bytes: &[u8]) -> usize
    requires { length bytes.now ≤ 510 }
    ensures { result ≡ weighed 1 bytes.now }
{
    let mut sum: usize = 0;
    for (i, byte) in bytes.iter().enumerate() {
        sum += weighed_byte(*byte, i + 1);
    }
    sum
}

// Whether every byte is zero.
pub(crate) fn all_zero(bytes: &[u8]) -> bool
    ensures { result ≡ all_zero bytes.now }
{
    bytes.iter().all(|byte| *byte == 0)
}
