// Rows split among the ways, of all contents that can lose a block at a miss.
ghost use Rattle.std.specs.Prelude.{◌≡◌, ◌<◌, length};
ghost use Rattle.rules.specs.Shape.{Listed};
ghost use Rattle.tight_rows.specs.Room.{Leaves};
ghost use Rattle.tight_rows.specs.Rows.{Splittable};
ghost use Rattle.tight.specs.Splitting.{can_lose, split_if, Shareable, Shared};

use crate::Shares;
use crate::rows::split_row;
use rules::Target;
use tables::has_block;

// Whether contents `mask` miss, and can lose a block.
pub(crate) fn can_lose(mask: u64, x: Target) -> bool
    requires { Listed 16 x.place }
    ensures { result ≡ can_lose x mask }
{
    let place = x.place;
    if has_block(mask, x.again, place) {
        return false;
    }
    if mask & x.mates == 0 {
        return false;
    }
    true
}

// The row at `row` is split, if its contents can lose a block; their mask stands at place `at`.
fn split_contents(
    work: &mut [u64],
    at: usize,
    row: usize,
    select: usize,
    rest: usize,
    width: usize,
    x: Target,
    ways: u64,
)
    requires { Listed 16 x.place × (at < length work.old) × Splittable ways row select rest width work.old }
    ensures { Leaves (split_if ways x at row select rest width) work.old work.new }
{
    if can_lose(work[at], x) {
        split_row(work, row, select, rest, width, ways);
        return;
    }
}

// The rows of all contents that can lose a block are split.
pub(crate) fn split_rows(work: &mut [u64], s: Shares, x: Target, ways: u64)
    requires { Listed 16 x.place × Shareable ways s work.old }
    ensures { Shared ways x s s.count work.old work.new }
{
    for k in 0..s.count {
        let row = s.rows + k * s.length;
        split_contents(work, s.masks + k, row, s.select, s.rest, s.width, x, ways);
    }
}
