// A table opened for what an access sends on: a row for each mask that has units.
ghost use Rattle.std.specs.Prelude.{◌≡◌, ◌+◌, ◌<◌, ◌≤◌, nat_le};
ghost use Rattle.tight_rows.specs.Room.{words_of, slot_words, Where};
ghost use Rattle.tight_rows.specs.Numbers.{sum_in, rank_of, some, Placed, is_placed, Openable, row_put, number_on, MaskOpened, NumberedTo, Opened};

use crate::Opening;
use crate::rows::{clear_row, ends_by};

// Row `row` is opened for `mask`, of so many units.
fn open_row(work: &mut [u64], o: Opening, mask: usize, units: u64, row: usize)
    requires { Placed o work.old × (mask < o.masks) × (row < o.contents) }
    ensures { work.new ≡ row_put o mask units row work.old }
{
    work[o.numbers + mask] = row as u64;
    work[o.slot + 4 + row] = mask as u64;
    work[o.slot + 4 + o.contents + row] = units;
}

// The number of `mask`, which has no units: that of where it goes on to.
fn number_on(work: &[u64], o: Opening, mask: usize) -> u64
    requires { Placed o work.now × (mask < o.masks) }
    ensures { result ≡ number_on o (words_of work.now) mask }
{
    let end = work[o.goes + mask] as usize;
    if end < mask {
        return work[o.numbers + end];
    }
    0
}

// `mask` has its number, and row `row` where it has units. Yields how many rows there are then.
fn open_mask(work: &mut [u64], o: Opening, mask: usize, row: usize) -> usize
    requires { Placed o work.old × (mask < o.masks) × (row + some (sum_in o (words_of work.old) mask) ≤ o.contents) }
    ensures { MaskOpened o mask row work.old work.new result }
{
    let units = work[o.plan + mask];
    if units == 0 {
        work[o.numbers + mask] = number_on(work, o, mask);
        return row;
    }
    open_row(work, o, mask, units, row);
    row + 1
}

// How many masks have units.
#[tactic(auto, using(crate::proofs::MasksNumbered::rank_most))]
fn count_rows(work: &[u64], o: Opening) -> usize
    requires { Placed o work.now }
    ensures { result ≡ rank_of (sum_in o (words_of work.now)) o.masks }
{
    let mut rows: usize = 0;
    for mask in 0..o.masks {
        rows += usize::from(0 < work[o.plan + mask]);
    }
    rows
}

// Whether the slot ends at place `end` or before.
#[tactic(auto, using(crate::proofs::Tests::slot_there))]
fn slot_ends_by(slot: usize, contents: usize, cells: usize, end: usize) -> bool
    ensures { result ≡ nat_le (slot + slot_words contents cells) end }
{
    if end < 4 {
        return false;
    }
    if end - 4 < contents {
        return false;
    }
    if end - 4 < cells {
        return false;
    }
    if end < slot {
        return false;
    }
    contents + 2 <= (end - slot) / (cells + 2)
}

// Whether the slot, the units by mask, where they go on to, and the numbers stand one behind the other in a room of `all` words.
fn is_placed(o: Opening, all: usize) -> bool
    ensures { result ≡ is_placed o all }
{
    if !slot_ends_by(o.slot, o.contents, o.cells, o.plan) {
        return false;
    }
    if !ends_by(o.plan, o.masks, o.goes) {
        return false;
    }
    if !ends_by(o.goes, o.masks, o.numbers) {
        return false;
    }
    ends_by(o.numbers, o.masks, all)
}

// All masks have their numbers, and those with units their rows. Yields how many rows there are.
#[tactic(auto, using(crate::proofs::MasksNumbered::may_open))]
fn number_masks(work: &mut [u64], o: Opening) -> usize
    requires { Placed o work.old × (rank_of (sum_in o (words_of work.old)) o.masks ≤ o.contents) }
    ensures { NumberedTo o o.masks result work.old work.new }
{
    let mut row: usize = 0;
    for mask in 0..o.masks {
        row = open_mask(work, o, mask, row);
    }
    row
}

// And the cells of these rows are 0.
fn open_all(work: &mut [u64], o: Opening) -> usize
    requires { Openable o work.old }
    ensures { Opened o result work.old work.new }
{
    let rows = number_masks(work, o);
    clear_row(
        work,
        o.slot + 4 + 2 * o.contents + 2 * o.cells,
        rows * o.cells,
    );
    rows
}

// The table is opened, if all is in its place and there are rows enough; else nothing is done.
pub fn open_rows(work: &mut [u64], o: Opening) -> usize
    ensures { Where (Openable o work.old) (Opened o result work.old work.new) ((result ≡ 0) × (work.new ≡ work.old)) }
{
    if !is_placed(o, work.len()) {
        return 0;
    }
    if o.contents < count_rows(work, o) {
        return 0;
    }
    open_all(work, o)
}
