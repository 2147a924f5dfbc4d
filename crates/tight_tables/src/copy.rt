// A table copied to another slot with only those blocks that are live. Contents that are then the same have their rows added together.
ghost use Rattle.std.specs.Prelude.{◌≡◌, suc, ◌+◌, ◌≤◌, ◌<◌, length};
ghost use Rattle.tight_rows.specs.Room.{words_of, Leaves, count_at, row_at, slot_words};
ghost use Rattle.tight_rows.specs.Rows.{replaced, raised};
ghost use Rattle.tight_rows.specs.Grid.{grid_of};
ghost use Rattle.tight_tables.specs.Copying.{live_units, words_more, WordsAddable, Copyable, NoSums, row_for, Bringing, Brought};

use tight_rows::Opening;
use tight_rows::rows::add_units;

// The `width` words from `to` on have those from `from` on more.
fn add_words(work: &mut [u64], from: usize, to: usize, width: usize)
    requires { WordsAddable from to width work.old }
    ensures { Leaves (λ w. replaced to width (words_more from to w) w) work.old work.new }
{
    for j in 0..width {
        work[to + j] += work[from + j];
    }
}

// The units of all contents of the slot at `from` are added up in the plan, by what is live of them.
fn sum_live(work: &mut [u64], o: Opening, from: usize, live: u64)
    requires { Copyable o from live work.old × NoSums o live work.old }
    ensures { Leaves (raised o.plan (suc live) (live_units live (grid_of o.contents o.cells from (words_of work.old)) (words_of work.old (count_at from)))) work.old work.new }
{
    let count = work[from] as usize;
    for k in 0..count {
        let mask = work[from + 4 + k] & live;
        let units = work[from + 4 + o.contents + k];
        add_units(work, o.plan, mask, units);
    }
}

// Where the row stands that contents `k` of the slot at `from` come to.
#[tactic(auto, using(crate::proofs::Copying::rows_apart), unfolding(rules::specs::Contents::shared))]
fn live_row(work: &[u64], o: Opening, from: usize, live: u64, k: usize) -> usize
    requires { (from + 4 + k < length work.now) × (o.numbers + live < length work.now) × (o.slot + slot_words o.contents o.cells ≤ length work.now) × (row_for o from live (words_of work.now) k < o.contents) }
    ensures { result ≡ row_at o.contents o.cells o.slot (row_for o from live (words_of work.now) k) }
{
    let mask = (work[from + 4 + k] & live) as usize;
    let row = work[o.numbers + mask] as usize;
    o.slot + 4 + 2 * o.contents + 2 * o.cells + row * o.cells
}

// The row of each contents of the slot at `from` is added to that of what is live of them.
fn add_live(work: &mut [u64], o: Opening, from: usize, live: u64)
    requires { Bringing o from live work.old }
    ensures { Brought o from live (words_of work.old (count_at from)) work.old work.new }
{
    let count = work[from] as usize;
    let width = work[from + 2] as usize;
    let rows = from + 4 + 2 * o.contents + 2 * o.cells;
    for k in 0..count {
        let to = live_row(work, o, from, live, k);
        add_words(work, rows + k * o.cells, to, width);
    }
}
