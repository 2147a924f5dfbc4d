// Settled filled numbers: for each cell the larger numbers of its groups, and the units whose numbers change.
ghost use Rattle.std.specs.Prelude.{◌≡◌, cond, not, suc, ◌+◌, ◌-◌, ◌*◌, ◌≤◌, ◌<◌, length};
ghost use Rattle.rules.specs.Filling.{same_filled};
ghost use Rattle.tight_rows.specs.Room.{words_of};
ghost use Rattle.tight_ends.specs.Stage.{groups_of};
ghost use Rattle.tight_ends.specs.Ending.{Staging, FilledPlaces, FilledAll, FilledThere};
ghost use Rattle.tight_ends.specs.Settling.{in_use, filled_in, filled_to, settled_filled, unlike as unlike_of, unlike_to, filled_put};
ghost use Rattle.tight_rows.specs.Grid.{filled_words};

use rules::Filled;
use states::filled::{fullest, same_filled};
use tight_rows::rows::filled_at;

// The filled numbers of a group of `units` units: none, where there are no units.
fn in_use(units: u64, f: Filled) -> Filled
    ensures { result ≡ in_use units f }
{
    if units == 0 {
        return Filled { front: 0, back: 0 };
    }
    f
}

// The larger numbers of the groups of cell `j`.
fn filled_in(work: &[u64], stage: usize, cells: usize, j: usize) -> Filled
    requires { (j ≤ cells) × (stage + 6 * suc cells ≤ length work.now) }
    ensures { result ≡ filled_in (groups_of cells stage (words_of work.now)) j }
{
    let row = cells + 1;
    let at = stage + j;
    let hit = filled_at(work, at + 2 * row, at + 3 * row);
    let missed = filled_at(work, at + 4 * row, at + 5 * row);
    fullest(in_use(work[at], hit), in_use(work[at + row], missed))
}

// And over the first `n` cells.
fn filled_to(work: &[u64], stage: usize, cells: usize, n: usize) -> Filled
    requires { (n ≤ suc cells) × (stage + 6 * suc cells ≤ length work.now) }
    ensures { result ≡ filled_to (groups_of cells stage (words_of work.now)) n }
{
    let mut f = Filled { front: 0, back: 0 };
    for j in 0..n {
        f = fullest(f, filled_in(work, stage, cells, j));
    }
    f
}

// Those of cell `i`, when the first `bottom` cells have risen.
fn settled_filled(work: &[u64], stage: usize, cells: usize, bottom: usize, i: usize) -> Filled
    requires { (bottom + i ≤ cells) × (stage + 6 * suc cells ≤ length work.now) }
    ensures { result ≡ settled_filled (groups_of cells stage (words_of work.now)) bottom i }
{
    if i == 0 {
        return filled_to(work, stage, cells, bottom + 1);
    }
    filled_in(work, stage, cells, bottom + i)
}

// The units of a group, where its filled numbers change to `f`.
fn changed_units(units: u64, old: Filled, f: Filled) -> u64
    ensures { result ≡ cond (not (same_filled old f)) units 0 }
{
    if same_filled(old, f) {
        return 0;
    }
    units
}

// The units of cell `j` whose filled numbers change to `f`.
fn unlike(work: &[u64], stage: usize, cells: usize, j: usize, f: Filled) -> u64
    requires { Staging cells stage (suc j) work.now }
    ensures { result ≡ unlike_of (groups_of cells stage (words_of work.now)) j f }
{
    let row = cells + 1;
    let at = stage + j;
    let hit = filled_at(work, at + 2 * row, at + 3 * row);
    let missed = filled_at(work, at + 4 * row, at + 5 * row);
    changed_units(work[at], hit, f) + changed_units(work[at + row], missed, f)
}

// The settled filled numbers of cell `i` go to their places in the slot: front words from `fronts` on, back words from `backs` on.
fn put_filled(
    work: &mut [u64],
    stage: usize,
    cells: usize,
    bottom: usize,
    fronts: usize,
    backs: usize,
    i: usize,
)
    requires { (bottom + i ≤ cells) × (stage + 6 * suc cells ≤ length work.old) × (fronts + i < length work.old) × (backs + i < length work.old) }
    ensures { work.new ≡ filled_put fronts backs i (settled_filled (groups_of cells stage (words_of work.old)) bottom i) work.old }
{
    let f = settled_filled(work, stage, cells, bottom, i);
    work[fronts + i] = f.front;
    work[backs + i] = f.back;
}

// The settled filled numbers of `width` cells, at their places in the slot.
pub(crate) fn put_all_filled(
    work: &mut [u64],
    stage: usize,
    cells: usize,
    bottom: usize,
    fronts: usize,
    backs: usize,
    width: usize,
)
    requires { FilledPlaces cells stage bottom fronts backs width work.old }
    ensures { FilledAll cells stage bottom fronts backs width work.old work.new }
{
    for i in 0..width {
        put_filled(work, stage, cells, bottom, fronts, backs, i);
    }
}

// How far cell `j` is beyond the first that stays: 0 for those that rise.
fn beyond(j: usize, bottom: usize) -> usize
    ensures { result ≡ j - bottom }
{
    if j < bottom {
        return 0;
    }
    j - bottom
}

// The units of the first `top` cells whose filled numbers change: to those that stand in the slot.
pub(crate) fn unlike_to(
    work: &[u64],
    stage: usize,
    cells: usize,
    bottom: usize,
    top: usize,
    fronts: usize,
    backs: usize,
) -> u64
    requires { FilledThere cells stage bottom top fronts backs work.now }
    ensures { result ≡ unlike_to (groups_of cells stage (words_of work.now)) bottom top }
{
    let mut sum: u64 = 0;
    for j in 0..top {
        let i = beyond(j, bottom);
        let f = filled_at(work, fronts + i, backs + i);
        sum += unlike(work, stage, cells, j, f);
    }
    sum
}
