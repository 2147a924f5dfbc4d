// The curves in cycles, core after core, from the units at each miss count.
ghost use Rattle.std.specs.Prelude.{◌≤◌, ◌<◌, length};
ghost use Rattle.writing.specs.Put.{Put};
ghost use Rattle.lines.specs.Lines.{lines_below};
ghost use Rattle.lines.specs.Cores.{core_line};
ghost use Rattle.lines.specs.Counts.{core_counts};

use crate::counts::put_lines;
use core_list::core_at;
use rules::Core;
use writing::{put_byte, put_named};

// The line of a core: its number, its hit cycles and its miss cycles.
fn put_core_line(room: &mut [u8], at: usize, number: usize, core: Core) -> usize
    ensures { Put (core_line number core) at result room.old room.new }
{
    let first = put_named(room, at, b"core ", number as u64);
    let second = put_named(room, first, b" hit ", core.hit);
    let third = put_named(room, second, b" miss ", core.miss);
    put_byte(room, third, b'\n')
}

// The lines of a core: its own, and one for each of the counts, where no misses stand for `longest` hits.
fn put_core(room: &mut [u8], at: usize, number: usize, counts: &[u64], longest: u32) -> usize
    requires { (number < 12) × (length counts.now ≤ 4097) }
    ensures { Put (core_counts longest counts.now number) at result room.old room.new }
{
    let core = core_at(number);
    let end = put_core_line(room, at, number, core);
    put_lines(
        room,
        end,
        counts,
        longest as u64 * core.hit,
        core.miss - core.hit,
    )
}

// The lines of every core, in order.
pub(crate) fn each_core(room: &mut [u8], at: usize, counts: &[u64], longest: u32) -> usize
    requires { length counts.now ≤ 4097 }
    ensures { Put (lines_below (core_counts longest counts.now) 12) at result room.old room.new }
{
    let mut end = at;
    for number in 0..12 {
        end = put_core(room, end, number, counts, longest);
    }
    end
}
