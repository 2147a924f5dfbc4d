// Rows of cells: summed, split and added to others.
ghost use Rattle.std.specs.Prelude.{◌≡◌, ◌≢◌, ◌+◌, ◌%◌, ◌^◌, ◌≤◌, ◌<◌, length};
ghost use Rattle.tight_rows.specs.Room.{words_of, Leaves};
ghost use Rattle.tight_rows.specs.Rows.{replaced, with_row, row_sum, split_at, split_to, Addable, Splittable};

// What is selected of the row at `from`, in all.
pub(crate) fn row_sum(work: &[u64], from: usize, select: usize, width: usize) -> u64
    requires { (from + width ≤ length work.now) × (select + width ≤ length work.now) × (row_sum from select width (words_of work.now) < 2 ^ 64) }
    ensures { result ≡ row_sum from select width (words_of work.now) }
{
    let mut sum: u64 = 0;
    for j in 0..width {
        sum += work[from + j] & work[select + j];
    }
    sum
}

// To the row at `to` is added what is selected of the row at `from`, so many times.
pub(crate) fn add_row(
    work: &mut [u64],
    from: usize,
    select: usize,
    to: usize,
    width: usize,
    times: u64,
)
    requires { Addable from select to width times work.old }
    ensures { Leaves (λ w. replaced to width (with_row from select to times w) w) work.old work.new }
{
    for j in 0..width {
        work[to + j] = work[to + j] + (work[from + j] & work[select + j]) * times;
    }
}

// The word at `at` is split among the ways, where the one at `select` is not 0; what is left over is added at `rest`.
fn split_cell(work: &mut [u64], at: usize, select: usize, rest: usize, ways: u64)
    requires { (1 ≤ ways) × (at < length work.old) × (select < length work.old) × (rest < length work.old) × (at ≢ rest) × (words_of work.old rest + words_of work.old at % ways < 2 ^ 64) }
    ensures { Leaves (split_at ways at select rest) work.old work.new }
{
    if work[select] == 0 {
        return;
    }
    let units = work[at];
    work[rest] = work[rest] + units % ways;
    work[at] = units / ways;
}

// Each word of the row is split among the ways, where it is selected; what is left over is added to the row at `rest`.
pub(crate) fn split_row(
    work: &mut [u64],
    row: usize,
    select: usize,
    rest: usize,
    width: usize,
    ways: u64,
)
    requires { Splittable ways row select rest width work.old }
    ensures { Leaves (split_to ways row select rest width) work.old work.new }
{
    for j in 0..width {
        split_cell(work, row + j, select + j, rest + j, ways);
    }
}
