// The row ends of a slot, from first to last: which columns stay, its rows, its filled numbers and its header; and what is set aside.
ghost use Rattle.std.specs.Prelude.{◌≡◌, ◌+◌, ◌^◌, ◌≤◌, ◌<◌, length};
ghost use Rattle.rules.specs.Units.{whole};
ghost use Rattle.tight_rows.specs.Room.{words_of, width_at};
ghost use Rattle.tight_ends.specs.Ended.{Endable, HeaderPut, SlotEnded, RowsEnded};

use crate::ends::{find_bottom, find_top, keep_rows};
use crate::settle::{put_all_filled, unlike_to};

// The slot has `rows` rows of `width` cells, the first `bottom` misses higher than before, and `gone` more lost units.
fn put_header(work: &mut [u64], slot: usize, rows: usize, bottom: usize, width: usize, gone: u64)
    requires { (slot + 4 ≤ length work.old) × (words_of work.old (slot + 1) + bottom < 2 ^ 64) × (words_of work.old (slot + 3) + gone < 2 ^ 64) }
    ensures { HeaderPut slot rows bottom width gone work.old work.new }
{
    let base = work[slot + 1] + bottom as u64;
    let lost = work[slot + 3] + gone;
    work[slot] = rows as u64;
    work[slot + 1] = base;
    work[slot + 2] = width as u64;
    work[slot + 3] = lost;
}

// The columns of a slot from `bottom` to `top` stay; those below rise, and those above, of `gone` units, are lost.
fn end_slot(
    work: &mut [u64],
    slot: usize,
    contents: usize,
    cells: usize,
    stage: usize,
    bottom: usize,
    top: usize,
    gone: u64,
)
    requires { Endable contents cells slot stage work.old × (bottom < top) × (top ≤ words_of work.old (width_at slot)) × (gone ≤ whole) }
    ensures { SlotEnded contents cells slot stage bottom top gone work.old work.new }
{
    let width = top - bottom;
    let fronts = slot + 4 + 2 * contents;
    let all = work[slot] as usize;
    let rows = keep_rows(work, slot, contents, cells, all, bottom, width);
    put_all_filled(work, stage, cells, bottom, fronts, fronts + cells, width);
    put_header(work, slot, rows, bottom, width, gone);
}

// The row ends of a slot that has a stage, and its settled filled numbers. Yields the units that this sets aside.
fn row_ends(work: &mut [u64], slot: usize, contents: usize, cells: usize, stage: usize) -> u64
    requires { Endable contents cells slot stage work.old }
    ensures { RowsEnded contents cells slot stage result work.old work.new }
{
    let width = work[slot + 2] as usize;
    let high = find_top(work, stage, cells, width);
    let top = high.columns;
    let low = find_bottom(work, stage, cells, top);
    let bottom = low.columns;
    end_slot(work, slot, contents, cells, stage, bottom, top, high.units);
    let fronts = slot + 4 + 2 * contents;
    let unlike = unlike_to(work, stage, cells, bottom, top, fronts, fronts + cells);
    high.units + low.units + unlike
}
