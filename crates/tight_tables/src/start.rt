// The first table: nothing held, no misses, all units.
ghost use Rattle.std.specs.Prelude.{◌+◌, ◌≤◌, length};
ghost use Rattle.tight_rows.specs.Room.{slot_words};
ghost use Rattle.tight_tables.specs.Begun.{Begun};

use rules::{Filled, Units};
use tight_rows::rows::clear_row;

// The slot has the first table, where `filled` may be filled.
fn start_slot(work: &mut [u64], slot: usize, contents: usize, cells: usize, filled: Filled)
    requires { (1 ≤ contents) × (1 ≤ cells) × (slot + slot_words contents cells ≤ length work.old) }
    ensures { Begun contents cells slot filled work.old work.new }
{
    let whole = Units::WHOLE;
    let fronts = slot + 4 + 2 * contents;
    let rows = fronts + 2 * cells;
    clear_row(work, slot, 4 + 2 * contents + 3 * cells);
    work[slot] = 1;
    work[slot + 2] = 1;
    work[slot + 4 + contents] = whole.0;
    work[fronts] = filled.front;
    work[fronts + cells] = filled.back;
    work[rows] = whole.0;
}
