// Rows of words that choose cells: those of which a miss evicts a block, those of which it evicts none, and all.
ghost use Rattle.std.specs.Prelude.{◌≡◌, ◌+◌, ◌-◌, ◌≤◌, ◌<◌, length};
ghost use Rattle.tight_rows.specs.Room.{words_of, Leaves};
ghost use Rattle.tight_rows.specs.Rows.{replaced};
ghost use Rattle.tight.specs.Selecting.{ones, chosen, loses_at, Selectable, Selects};

use rules::Target;
use states::filled::number_of;
use tight_rows::rows::{fill_row, filled_at};

// All ones where a miss evicts a block at cell `j`, otherwise 0.
fn losing_word(work: &[u64], fronts: usize, backs: usize, j: usize, x: Target, ways: u64) -> u64
    requires { (x.set < 16) × (fronts + j < length work.now) × (backs + j < length work.now) }
    ensures { result ≡ chosen (loses_at ways x fronts backs (words_of work.now) j) }
{
    let f = filled_at(work, fronts + j, backs + j);
    if number_of(f, x.set) < ways {
        return 0;
    }
    18446744073709551615
}

// The row at `to` chooses the cells of which a miss evicts a block.
fn select_losing(
    work: &mut [u64],
    fronts: usize,
    backs: usize,
    to: usize,
    width: usize,
    x: Target,
    ways: u64,
)
    requires { (x.set < 16) × (fronts + width ≤ to) × (backs + width ≤ to) × (to + width ≤ length work.old) }
    ensures { Leaves (λ w. replaced to width (λ j. chosen (loses_at ways x fronts backs w j)) w) work.old work.new }
{
    for j in 0..width {
        work[to + j] = losing_word(work, fronts, backs, j, x, ways);
    }
}

// The row at `to` chooses the cells that the one at `from` does not.
fn select_others(work: &mut [u64], from: usize, to: usize, width: usize)
    requires { (from + width ≤ to) × (to + width ≤ length work.old) }
    ensures { Leaves (λ w. replaced to width (λ j. ones - w (from + j)) w) work.old work.new }
{
    for j in 0..width {
        work[to + j] = 18446744073709551615 - work[from + j];
    }
}

// The three rows, by the filled numbers of the cells.
pub(crate) fn select_rows(
    work: &mut [u64],
    fronts: usize,
    backs: usize,
    lose: usize,
    keep: usize,
    all: usize,
    width: usize,
    x: Target,
    ways: u64,
)
    requires { Selectable x fronts backs lose keep all width work.old }
    ensures { Selects ways x fronts backs lose keep all width work.old work.new }
{
    select_losing(work, fronts, backs, lose, width, x, ways);
    select_others(work, lose, keep, width);
    fill_row(work, all, width, 18446744073709551615);
}
