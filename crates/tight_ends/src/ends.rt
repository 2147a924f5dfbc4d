// Row ends: which columns of a slot stay, from the units that the stage has of each; and its rows, gathered between them.
ghost use Rattle.std.specs.Prelude.{◌≡◌, ◌&&◌, suc, ◌+◌, ◌*◌, ◌^◌, ◌≤◌, ◌<◌, ltb, length};
ghost use Rattle.basics.proofs.Sums.{sum_to};
ghost use Rattle.tight_rules.specs.Ends.{allowance};
ghost use Rattle.tight_rows.specs.Room.{words_of, Leaves, row_at, slot_words};
ghost use Rattle.tight_rows.specs.Rows.{replaced};
ghost use Rattle.tight_ends.specs.Stage.{groups_of};
ghost use Rattle.tight_ends.specs.Ending.{Topped, Bottomed, Staging};
ghost use Rattle.tight_ends.specs.Settling.{both, Gathering, gathered_row};
ghost use Rattle.tight_ends.specs.Keeping.{Keeping, RowKept, KeepingAll, KeptTo};

use crate::Part;
use tight_rows::rows::{clear_row, sum_of};

// The units of column `j`.
fn column_units(work: &[u64], stage: usize, cells: usize, j: usize) -> u64
    requires { Staging cells stage (suc j) work.now }
    ensures { result ≡ both (groups_of cells stage (words_of work.now)) j }
{
    work[stage + j] + work[stage + (cells + 1) + j]
}

// The columns that stay, of `width`: the highest leave while they have at most 4,096 units in all.
pub(crate) fn find_top(work: &[u64], stage: usize, cells: usize, width: usize) -> Part
    requires { (1 ≤ width) × Staging cells stage width work.now }
    ensures { Topped (both (groups_of cells stage (words_of work.now))) width result.columns result.units }
{
    let mut gone: u64 = 0;
    for j in (1..width).rev() {
        let units = column_units(work, stage, cells, j);
        if 4096 < gone + units {
            return Part {
                columns: j + 1,
                units: gone,
            };
        }
        gone += units;
    }
    Part {
        columns: 1,
        units: gone,
    }
}

// Whether column `j` stays: it would be too many units, and the columns from it on are not too many.
fn stays(units: u64, j: usize, top: usize, cells: usize) -> bool
    requires { j + cells < 2 ^ 64 }
    ensures { result ≡ (ltb top (j + cells) && ltb allowance units) }
{
    if top < j + cells {
        return 4096 < units;
    }
    false
}

// The columns that rise, of `top`: the lowest, while they have at most 4,096 units in all or more than `cells` - 1 columns would stay.
pub(crate) fn find_bottom(work: &[u64], stage: usize, cells: usize, top: usize) -> Part
    requires { (1 ≤ top) × Staging cells stage top work.now }
    ensures { Bottomed (both (groups_of cells stage (words_of work.now))) cells top result.columns result.units }
{
    let mut low: u64 = 0;
    for bottom in 0..top - 1 {
        let units = low + column_units(work, stage, cells, bottom);
        if stays(units, bottom, top, cells) {
            return Part {
                columns: bottom,
                units: low,
            };
        }
        low = units;
    }
    Part {
        columns: top - 1,
        units: low,
    }
}

// The `n` words from place `from` on, copied down to place `to`.
fn copy_down(work: &mut [u64], from: usize, to: usize, n: usize)
    requires { (to ≤ from) × (from + n ≤ length work.old) }
    ensures { Leaves (λ w. replaced to n (λ j. w (from + j)) w) work.old work.new }
{
    work.copy_within(from..from + n, to);
}

// The row at `from`, its first `bottom` cells risen and `width` cells left, goes to `to`.
fn gather_row(work: &mut [u64], from: usize, to: usize, bottom: usize, width: usize, cells: usize)
    requires { Gathering from to bottom width cells work.old }
    ensures { Leaves (λ w. replaced to cells (gathered_row bottom width (λ j. w (from + j))) w) work.old work.new }
{
    let first = sum_of(work, from, bottom + 1);
    copy_down(work, from + bottom, to, width);
    work[to] = first;
    clear_row(work, to + width, cells - width);
}

// Where row `k` of a slot begins.
fn row_place(slot: usize, contents: usize, cells: usize, k: usize) -> usize
    requires { (k < contents) × (slot + slot_words contents cells < 2 ^ 64) }
    ensures { result ≡ row_at contents cells slot k }
{
    slot + 4 + 2 * contents + 2 * cells + k * cells
}

// Row `k` becomes row `to`, gathered, with its contents and units; where no units are left it is none. Yields how many rows there are then.
fn keep_row(
    work: &mut [u64],
    slot: usize,
    contents: usize,
    cells: usize,
    k: usize,
    to: usize,
    bottom: usize,
    width: usize,
) -> usize
    requires { Keeping contents cells slot bottom width k to work.old }
    ensures { RowKept contents cells slot bottom width k to work.old work.new result }
{
    let from = row_place(slot, contents, cells, k);
    let row = row_place(slot, contents, cells, to);
    gather_row(work, from, row, bottom, width, cells);
    let units = sum_of(work, row, width);
    if units == 0 {
        return to;
    }
    work[slot + 4 + to] = work[slot + 4 + k];
    work[slot + 4 + contents + to] = units;
    to + 1
}

// All rows of a slot, gathered; those that keep no units are left out. Yields how many there are then.
pub(crate) fn keep_rows(
    work: &mut [u64],
    slot: usize,
    contents: usize,
    cells: usize,
    rows: usize,
    bottom: usize,
    width: usize,
) -> usize
    requires { KeepingAll contents cells slot bottom width rows work.old }
    ensures { KeptTo contents cells slot bottom width rows result work.old work.new }
{
    let mut to: usize = 0;
    for k in 0..rows {
        to = keep_row(work, slot, contents, cells, k, to, bottom, width);
    }
    to
}
