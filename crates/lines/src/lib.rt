// The lines of curves, in misses and in cycles, put into lent room one behind the other, as far as it goes. Each function says where what it wrote ends.
#![tactic(auto)]

ghost use Rattle.std.specs.Prelude.{take};
ghost use Rattle.rules.specs.Units.{whole};
ghost use Rattle.writing.specs.Put.{Put};
ghost use Rattle.lines.specs.Lines.{head_words, head_line, lines_below};
ghost use Rattle.lines.specs.Cores.{longest_line};
ghost use Rattle.lines.specs.Counts.{count_lines, core_counts};

use crate::cores::each_core;
use crate::counts::put_lines;
use writing::{put_byte, put_named};

mod cores;
mod counts;

// The number of states and the set-aside count.
fn put_head_words(room: &mut [u8], states: u64, aside: u64) -> usize
    ensures { Put (head_words states aside) 0 result room.old room.new }
{
    let counted = put_named(room, 0, b"states ", states);
    put_named(room, counted, b" aside ", aside)
}

// The first line of the curve: these two.
pub fn put_head(room: &mut [u8], states: u64, aside: u64) -> usize
    ensures { Put (head_line states aside) 0 result room.old room.new }
{
    let end = put_head_words(room, states, aside);
    put_byte(room, end, b'\n')
}

// The first line of the curves in cycles: these two and the longest path's accesses.
pub fn put_longest(room: &mut [u8], states: u64, aside: u64, longest: u64) -> usize
    ensures { Put (longest_line states aside longest) 0 result room.old room.new }
{
    let counted = put_head_words(room, states, aside);
    let end = put_named(room, counted, b" longest ", longest);
    put_byte(room, end, b'\n')
}

// A line for each of the counts, the units at each miss count: the misses, the units there, and what is left of WHOLE behind it. A table has at most 4,097 counts, and
// no more are put.
pub fn put_counts(room: &mut [u8], at: usize, counts: &[u64]) -> usize
    ensures { Put (count_lines 0 1 0 whole (take 4097 counts.now)) at result room.old room.new }
{
    if 4097 < counts.len() {
        return put_lines(room, at, &counts[..4097], 0, 1);
    }
    put_lines(room, at, counts, 0, 1)
}

// The lines of every core, in order: its own, and one for each of the counts, in cycles, where the longest path has `longest` accesses.
pub fn put_cores(room: &mut [u8], at: usize, counts: &[u64], longest: u32) -> usize
    ensures { Put (lines_below (core_counts longest (take 4097 counts.now)) 12) at result room.old room.new }
{
    if 4097 < counts.len() {
        return each_core(room, at, &counts[..4097], longest);
    }
    each_core(room, at, counts, longest)
}
