// The answer: a row with the units at each miss count.
ghost use Rattle.std.specs.Prelude.{◌≡◌, ℕ, ◌+◌, ◌^◌, ◌≤◌, ◌<◌, length};
ghost use Rattle.rules.specs.Questions.{counts_below};
ghost use Rattle.tight_rules.specs.Rows.{meaning};
ghost use Rattle.tight_rows.specs.Room.{words_of, Leaves, count_at};
ghost use Rattle.tight_rows.specs.Rows.{raised};
ghost use Rattle.tight_rows.specs.Grid.{grid_of, rows_of};
ghost use Rattle.tight_tables.specs.Answering.{column_to, Answerable, Zeros};

use tight_rows::rows::clear_row;

// The `width` cells of `res` from `to` on have the units of the row at `row` more.
fn add_cells(res: &mut [u64], work: &[u64], row: usize, to: usize, width: usize)
    requires { (to + width ≤ length res.old) × (row + width ≤ length work.now) × ((j : ℕ) → j < width → words_of res.old (to + j) + words_of work.now (row + j) < 2 ^ 64) }
    ensures { Leaves (raised to width (λ j. words_of work.now (row + j))) res.old res.new }
{
    for j in 0..width {
        res[to + j] += work[row + j];
    }
}

// The units of all contents of a slot, each at its miss count.
fn add_contents(res: &mut [u64], work: &[u64], slot: usize, contents: usize, cells: usize)
    requires { Answerable contents cells slot (length res.old) work.now × Zeros res.old }
    ensures { Leaves (λ _. column_to (grid_of contents cells slot (words_of work.now)) (words_of work.now (count_at slot))) res.old res.new }
{
    let rows = slot + 4 + 2 * contents + 2 * cells;
    let count = work[slot] as usize;
    let base = work[slot + 1] as usize;
    let width = work[slot + 2] as usize;
    for k in 0..count {
        add_cells(res, work, rows + k * cells, base, width);
    }
}

// The row that a slot's table means, where the longest path has `longest` accesses: the lost units are there, and 0 where there are no units.
fn answer_row(
    res: &mut [u64],
    work: &[u64],
    slot: usize,
    contents: usize,
    cells: usize,
    longest: usize,
)
    requires { Answerable contents cells slot (length res.old) work.now × (longest < length res.old) }
    ensures { res.new ≡ counts_below (length res.old) (meaning longest (rows_of 0 (grid_of contents cells slot (words_of work.now)))) }
{
    let all = res.len();
    clear_row(res, 0, all);
    add_contents(res, work, slot, contents, cells);
    res[longest] += work[slot + 3];
}
