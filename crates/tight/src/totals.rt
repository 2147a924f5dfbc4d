// The units that go to each mask at an access, of all contents.
ghost use Rattle.std.specs.Prelude.{suc, ◌+◌, ◌<◌, length};
ghost use Rattle.basics.proofs.Sums.{sum_to};
ghost use Rattle.tight_rows.specs.Room.{words_of, Leaves};
ghost use Rattle.tight_rows.specs.Rows.{raised};
ghost use Rattle.tight.specs.Access.{Summable};
ghost use Rattle.tight.specs.Sending.{mask_in, units_in, part_in, stay_in, goes_from, Sending, Addable, Totalling, Totalled};

use crate::Sender;
use crate::rows::row_sum;
use crate::splits::can_lose;
use crate::sums::{comes_to, sum_contents};
use rules::Target;
use tight_rows::rows::{add_units, clear_row};

// Row `k` is added to the sums. What a way would have is asked only where a block can be lost.
fn sum_row(work: &mut [u64], s: Sender, plan: usize, k: usize, x: Target, live: u64, ways: u64)
    requires { (k < s.count) × Sending s plan (suc live) work.old × Summable ways x plan live (mask_in s (words_of work.old) k) (units_in s (words_of work.old) k) (part_in s (words_of work.old) k) (stay_in s (words_of work.old) k) work.old }
    ensures { Leaves (raised plan (suc live) (λ D. goes_from ways x live s (words_of work.old) D k)) work.old work.new }
{
    let mask = work[s.masks + k];
    let all = work[s.units + k];
    if can_lose(mask, x) {
        let row = s.rows + k * s.length;
        let part = row_sum(work, row, s.lose, s.width);
        let stay = row_sum(work, row, s.keep, s.width);
        sum_contents(work, plan, mask, all, part, stay, x, live, ways);
        return;
    }
    sum_contents(work, plan, mask, all, 0, 0, x, live, ways);
}

// All rows are added to the sums.
fn sum_rows(work: &mut [u64], s: Sender, plan: usize, x: Target, live: u64, ways: u64)
    requires { Sending s plan (suc live) work.old × Addable ways x live s plan work.old }
    ensures { Leaves (raised plan (suc live) (λ D. sum_to s.count (goes_from ways x live s (words_of work.old) D))) work.old work.new }
{
    for k in 0..s.count {
        sum_row(work, s, plan, k, x, live, ways);
    }
}

// The sums of `masks` masks: of all rows, and of what is left over, which keeps the accessed block alone. Yields what is left over.
pub(crate) fn sum_all(
    work: &mut [u64],
    s: Sender,
    plan: usize,
    masks: usize,
    x: Target,
    live: u64,
    ways: u64,
) -> u64
    requires { Totalling ways x live s plan masks work.old }
    ensures { Totalled ways x live s plan masks result work.old work.new }
{
    let left = row_sum(work, s.rest, s.all, s.width);
    let end = comes_to(0, x, live);
    clear_row(work, plan, masks);
    sum_rows(work, s, plan, x, live, ways);
    add_units(work, plan, end, left);
    left
}
