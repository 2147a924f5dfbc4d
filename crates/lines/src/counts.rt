// A line for each of some counts.
ghost use Rattle.std.specs.Prelude.{◌≡◌, ◌+◌, ◌-◌, ◌*◌, ◌≤◌, length};
ghost use Rattle.rules.specs.Units.{whole};
ghost use Rattle.writing.specs.Put.{Put};
ghost use Rattle.lines.specs.Lines.{count_line};
ghost use Rattle.lines.specs.Counts.{count_lines};

use rules::Units;
use writing::put_entry;

// A line of a curve: `misses` or the cycles that they stand for, units there, units above.
fn put_line(room: &mut [u8], at: usize, misses: u64, units: u64, above: u64) -> usize
    ensures { Put (count_line misses units above) at result room.old room.new }
{
    let first = put_entry(room, at, misses, false);
    let second = put_entry(room, first, units, false);
    put_entry(room, second, above, true)
}

// A line for each of the counts: no misses stand for `first`, and each miss for `step` more; the units there, and what is left of WHOLE behind it.
pub(crate) fn put_lines(room: &mut [u8], at: usize, counts: &[u64], first: u64, step: u64) -> usize
    requires { first + length counts.now * step ≤ 18446744073709551615 }
    ensures { Put (count_lines first step 0 whole counts.now) at result room.old room.new }
{
    let whole = Units::WHOLE;
    let mut left = whole.0;
    let mut end = at;
    for (m, units) in counts.iter().enumerate() {
        left = left.saturating_sub(*units);
        end = put_line(room, end, first + m as u64 * step, *units, left);
    }
    end
}
