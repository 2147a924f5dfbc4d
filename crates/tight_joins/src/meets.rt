// What the pairs of two tables' rows come to: units by mask, and rows.
ghost use Rattle.std.specs.Prelude.{◌≡◌, ◌+◌, ◌-◌, ◌^◌, ◌<◌, min, max, length};
ghost use Rattle.basics.proofs.Sums.{sum_to};
ghost use Rattle.tight_rows.specs.Room.{words_of, Leaves};
ghost use Rattle.tight_rows.specs.Rows.{raised};
ghost use Rattle.tight_joins.specs.Meeting.{left_row, right_row, units_in, meets, comes_by, pair_added, met_at, PairsThere, Summable, Meetable, RowsMeet, RowsMet, row_for, MeetAll, MetTo};

use crate::Meeting;
use tight_pairs::Sides;
use tight_rows::rows::add_units;

// The blocks that the rows of pair `k` share.
pub(crate) fn pair_mask(work: &[u64], p: Sides, n: usize, k: usize) -> u64
    requires { PairsThere p n work.now × (k < n) }
    ensures { result ≡ meets p (words_of work.now) k }
{
    let at = p.pairs + 3 * k;
    let i = work[at] as usize;
    let j = work[at + 1] as usize;
    work[p.left.masks + i] & work[p.right.masks + j]
}

// The units of pair `k` are added to the sum of its mask.
fn sum_pair(work: &mut [u64], p: Sides, plan: usize, n: usize, k: usize)
    requires { PairsThere p n work.old × (k < n) × (plan + meets p (words_of work.old) k < length work.old) × (words_of work.old (plan + meets p (words_of work.old) k) + units_in p (words_of work.old) k < 2 ^ 64) }
    ensures { work.new ≡ pair_added p plan k work.old }
{
    let mask = pair_mask(work, p, n, k);
    let units = work[p.pairs + 3 * k + 2];
    add_units(work, plan, mask, units);
}

// The units of all pairs are added to the sums of their masks.
pub(crate) fn sum_pairs(work: &mut [u64], p: Sides, plan: usize, n: usize)
    requires { Summable p plan n work.old }
    ensures { Leaves (λ w. raised plan (p.pairs - plan) (λ D. sum_to n (comes_by p w D)) w) work.old work.new }
{
    for k in 0..n {
        sum_pair(work, p, plan, n, k);
    }
}

// Of `units` units, how many lie at or above a cell where `a` and `b` lie of the two rows, of which `ours` and `theirs` are used already.
fn met(a: u64, ours: u64, b: u64, theirs: u64, units: u64) -> u64
    ensures { result ≡ min units (max (a - ours) (b - theirs)) }
{
    let free = a.saturating_sub(ours).max(b.saturating_sub(theirs));
    units.min(free)
}

// To the row at `to` is added how many of `units` units lie at or above each cell.
fn meet_rows(
    work: &mut [u64],
    left: usize,
    ours: u64,
    right: usize,
    theirs: u64,
    to: usize,
    width: usize,
    units: u64,
)
    requires { Meetable left right to width units work.old }
    ensures { Leaves (λ w. raised to width (met_at left ours right theirs units w) w) work.old work.new }
{
    for j in 0..width {
        let more = met(work[left + j], ours, work[right + j], theirs, units);
        work[to + j] = work[to + j] + more;
    }
}

// `units` units of rows `i` and `j` come to row `row`.
fn meet_at(work: &mut [u64], m: Meeting, i: usize, j: usize, row: usize, units: u64)
    requires { RowsMeet m i j row units work.old }
    ensures { RowsMet m i j row units work.old work.new }
{
    let ours = work[m.sides.left.units + i];
    let theirs = work[m.sides.right.units + j];
    let left = m.left + i * m.to.length;
    let right = m.right + j * m.to.length;
    let to = m.to.rows + row * m.to.length;
    meet_rows(work, left, ours, right, theirs, to, m.to.width, units);
    work[m.sides.left.units + i] = ours + units;
    work[m.sides.right.units + j] = theirs + units;
}

// Pair `k` of `n` comes to the row of the mask that its rows share.
fn meet_pair(work: &mut [u64], m: Meeting, n: usize, k: usize)
    requires { PairsThere m.sides n work.old × (k < n) × (m.numbers + meets m.sides (words_of work.old) k < length work.old) × RowsMeet m (left_row m.sides (words_of work.old) k) (right_row m.sides (words_of work.old) k) (row_for m (words_of work.old) k) (units_in m.sides (words_of work.old) k) work.old }
    ensures { RowsMet m (left_row m.sides (words_of work.old) k) (right_row m.sides (words_of work.old) k) (row_for m (words_of work.old) k) (units_in m.sides (words_of work.old) k) work.old work.new }
{
    let mask = pair_mask(work, m.sides, n, k);
    let row = work[m.numbers + mask as usize] as usize;
    let at = m.sides.pairs + 3 * k;
    let i = work[at] as usize;
    let j = work[at + 1] as usize;
    let units = work[at + 2];
    meet_at(work, m, i, j, row, units);
}

// All pairs do, one after the other.
pub(crate) fn meet_pairs(work: &mut [u64], m: Meeting, n: usize)
    requires { MeetAll m n work.old }
    ensures { MetTo m n work.old work.new }
{
    for k in 0..n {
        meet_pair(work, m, n, k);
    }
}
