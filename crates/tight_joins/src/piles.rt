// Rows of cells become heights, how many units lie at or above each cell, and heights become cells again.
ghost use Rattle.std.specs.Prelude.{◌≡◌, ◌+◌, ◌-◌, ◌^◌, ◌≤◌, ◌<◌, length};
ghost use Rattle.basics.proofs.Sums.{sum_to};
ghost use Rattle.tight_rows.specs.Room.{words_of, Leaves};
ghost use Rattle.tight_rows.specs.Rows.{replaced};
ghost use Rattle.tight_joins.specs.Piling.{piled, next_height, stepped, Banded, EachRow, Light};

use crate::Band;
use tight_rows::rows::{clear_row, sum_of};

// The first `width` - `by` of `width` words at `at` become heights, each of the cell that is `by` further on.
fn pile_on(work: &mut [u64], at: usize, width: usize, by: usize)
    requires { (by ≤ width) × (at + width ≤ length work.old) × (sum_to width (λ i. words_of work.old (at + i)) < 2 ^ 64) }
    ensures { Leaves (λ w. replaced at (width - by) (piled by width at w) w) work.old work.new }
{
    let all = sum_of(work, at, width);
    let below = sum_of(work, at, by);
    let mut left = all - below;
    for j in 0..width - by {
        let units = work[at + by + j];
        work[at + j] = left;
        left -= units;
    }
}

// All of them do; nothing lies as high as the last.
fn pile_row(work: &mut [u64], at: usize, width: usize, by: usize)
    requires { (by ≤ width) × (at + width ≤ length work.old) × (sum_to width (λ i. words_of work.old (at + i)) < 2 ^ 64) }
    ensures { Leaves (λ w. replaced at width (piled by width at w) w) work.old work.new }
{
    pile_on(work, at, width, by);
    clear_row(work, at + (width - by), by);
}

// All rows become heights.
pub(crate) fn pile_rows(work: &mut [u64], b: Band, by: usize)
    requires { Banded b work.old × (by ≤ b.width) × Light b work.old }
    ensures { EachRow b (piled by b.width) b.count work.old work.new }
{
    for k in 0..b.count {
        let row = b.rows + k * b.length;
        pile_row(work, row, b.width, by);
    }
}

// The height behind that of cell `j`.
fn next_height(work: &[u64], at: usize, width: usize, j: usize) -> u64
    requires { (j < width) × (at + width ≤ length work.now) }
    ensures { result ≡ next_height width at (words_of work.now) j }
{
    if j + 1 < width {
        return work[at + j + 1];
    }
    0
}

// The heights of a row become cells.
fn step_row(work: &mut [u64], at: usize, width: usize)
    requires { at + width ≤ length work.old }
    ensures { Leaves (λ w. replaced at width (stepped width at w) w) work.old work.new }
{
    for j in 0..width {
        let next = next_height(work, at, width, j);
        work[at + j] = work[at + j].saturating_sub(next);
    }
}

// The heights of all rows become cells.
pub(crate) fn step_rows(work: &mut [u64], b: Band)
    requires { Banded b work.old }
    ensures { EachRow b (stepped b.width) b.count work.old work.new }
{
    for k in 0..b.count {
        let row = b.rows + k * b.length;
        step_row(work, row, b.width);
    }
}
