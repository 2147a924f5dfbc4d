// The stage of an access: of each column the units that hit and those that miss, and the filled numbers of both; and the header of the slot that they are for.
ghost use Rattle.std.specs.Prelude.{◌≡◌, ◌⊎◌, ℕ, suc, ◌+◌, ◌*◌, ◌^◌, ◌≤◌, ◌<◌, length};
ghost use Rattle.rules.specs.Filling.{fill_one};
ghost use Rattle.rules.specs.Shape.{Listed};
ghost use Rattle.tight_rows.specs.Room.{words_of, width_at};
ghost use Rattle.tight.specs.Sending.{start_at};
ghost use Rattle.tight.specs.Grouping.{column_of, Counting, ColumnFits, RowCounted, CountedTo, UnitsStaged, group_put, Grouping, Grouped, HeaderSent};

use crate::Sender;
use crate::rows::add_row;
use rules::{Filled, State, Target, Units};
use states::step::fuller;
use tables::has_block;
use tight_rows::rows::{clear_row, filled_at};

// Row `k` is added to the units that hit, or one cell further on to those that miss.
fn stage_row(work: &mut [u64], s: Sender, stage: usize, cells: usize, k: usize, x: Target)
    requires { Listed 16 x.place × (k < s.count) × Counting cells stage s work.old × ((j : ℕ) → j < s.width → ColumnFits cells stage j (words_of work.old (start_at s k + j)) work.old) }
    ensures { RowCounted cells stage x s k work.old work.new }
{
    let row = s.rows + k * s.length;
    let mask = work[s.masks + k];
    let place = x.place;
    if has_block(mask, x.again, place) {
        add_row(work, row, s.all, stage, s.width, 1);
        return;
    }
    add_row(work, row, s.all, stage + cells + 2, s.width, 1);
}

// All rows are.
fn stage_rows(work: &mut [u64], s: Sender, stage: usize, cells: usize, x: Target)
    requires { Listed 16 x.place × Counting cells stage s work.old × ((j : ℕ) → j < s.width → ColumnFits cells stage j (column_of s (words_of work.old) j) work.old) }
    ensures { CountedTo cells stage x s s.count work.old work.new }
{
    for k in 0..s.count {
        stage_row(work, s, stage, cells, k, x);
    }
}

// The units of each column that hit, and those that miss.
pub(crate) fn stage_units(work: &mut [u64], s: Sender, stage: usize, cells: usize, x: Target)
    requires { Listed 16 x.place × Counting cells stage s work.old × ((j : ℕ) → j < s.width → column_of s (words_of work.old) j < 2 ^ 64) }
    ensures { UnitsStaged cells stage x s work.old work.new }
{
    clear_row(work, stage, 2 * (cells + 1));
    stage_rows(work, s, stage, cells, x);
}

// The filled numbers after a miss: one way more of the accessed set.
fn filled_after(f: Filled, x: Target, ways: u64) -> Filled
    requires { Listed 16 x.place × (x.set < 16) × (ways ≤ 16) }
    ensures { result ≡ fill_one ways x.set f }
{
    let before = State {
        mask: 0,
        misses: 0,
        filled: f,
        units: Units(0),
    };
    let after = fuller(before, x, ways);
    after.filled
}

// The filled numbers of those that hit in the column whose first word is at `at`, and of those that missed in the next; a row has `row` words.
fn put_group(work: &mut [u64], at: usize, row: usize, hit: Filled, missed: Filled)
    requires { at + 5 * row + 1 < length work.old }
    ensures { work.new ≡ group_put at row hit missed work.old }
{
    work[at + 2 * row] = hit.front;
    work[at + 3 * row] = hit.back;
    work[at + 4 * row + 1] = missed.front;
    work[at + 5 * row + 1] = missed.back;
}

// The filled numbers of each column, from those that `width` cells had: front words from `fronts` on, back words from `backs` on.
pub(crate) fn put_groups(
    work: &mut [u64],
    fronts: usize,
    backs: usize,
    stage: usize,
    cells: usize,
    width: usize,
    x: Target,
    ways: u64,
)
    requires { Listed 16 x.place × (x.set < 16) × (ways ≤ 16) × Grouping cells stage fronts backs width work.old }
    ensures { Grouped ways cells stage x fronts backs width work.old work.new }
{
    for j in 0..width {
        let f = filled_at(work, fronts + j, backs + j);
        put_group(work, stage + j, cells + 1, f, filled_after(f, x, ways));
    }
}

// The header of the slot at `to`, which has `rows` rows: that of the slot at `from`, with one cell more to a row.
pub(crate) fn send_header(work: &mut [u64], from: usize, to: usize, rows: usize)
    requires { (from + 4 ≤ length work.old) × (to + 4 ≤ length work.old) × ((from + 4 ≤ to) ⊎ (to + 4 ≤ from)) × (suc (words_of work.old (width_at from)) < 2 ^ 64) }
    ensures { HeaderSent from to rows work.old work.new }
{
    let base = work[from + 1];
    let width = work[from + 2] + 1;
    let lost = work[from + 3];
    work[to] = rows as u64;
    work[to + 1] = base;
    work[to + 2] = width;
    work[to + 3] = lost;
}
