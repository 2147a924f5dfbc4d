// One access of the second curve, part by part.
ghost use Rattle.std.specs.Prelude.{◌≡◌, ◌+◌, ◌^◌, ◌≤◌, ◌<◌, length};
ghost use Rattle.rules.specs.Shape.{Listed};
ghost use Rattle.tight_rules.specs.Run.{alive};
ghost use Rattle.tight_rows.specs.Room.{slot_words};
ghost use Rattle.tight.specs.Sending.{Totalling};
ghost use Rattle.tight.specs.Passing.{shares_of, Preparing, RowsPrepared, PlanReduced, Planned, receiver_of, Delivering, Delivered};

use crate::arrivals::move_all;
use crate::selects::select_rows;
use crate::splits::split_rows;
use crate::stages::{put_groups, send_header, stage_units};
use crate::totals::sum_all;
use crate::{Receiver, Sender, SetAside, Shares};
use plan::reduce;
use rules::Target;
use tables::has_place;
use tight_rows::Opening;
use tight_rows::opens::open_rows;
use tight_rows::rows::clear_row;

// The rows that are split, of what is sent.
fn shares_of(s: Sender) -> Shares
    ensures { result ≡ shares_of s }
{
    Shares {
        masks: s.masks,
        rows: s.rows,
        length: s.length,
        count: s.count,
        select: s.lose,
        rest: s.rest,
        width: s.width,
    }
}

// Cells are chosen by the filled numbers at `fronts` and `backs`, the stage has its units, and rows are split.
pub(crate) fn prepare(
    work: &mut [u64],
    s: Sender,
    fronts: usize,
    backs: usize,
    stage: usize,
    cells: usize,
    x: Target,
    ways: u64,
)
    requires { Preparing ways x s fronts backs stage cells work.old }
    ensures { RowsPrepared ways x s fronts backs stage cells work.old work.new }
{
    let shares = shares_of(s);
    select_rows(work, fronts, backs, s.lose, s.keep, s.all, s.width, x, ways);
    stage_units(work, s, stage, cells, x);
    clear_row(work, s.rest, s.width);
    split_rows(work, shares, x, ways);
}

// The place, if it is live.
fn live_place(live: u64, place: Option<usize>) -> Option<usize>
    requires { Listed 16 place }
    ensures { result ≡ alive live place }
{
    match place {
        Some(i) => {
            if has_place(live, i) {
                return Some(i);
            }
            None
        }
        None => None,
    }
}

// The plan of `masks` masks at `plan` is reduced to at most `limit` of them. Yields what this sets aside.
fn reduce_plan(
    work: &mut [u64],
    plan: usize,
    masks: usize,
    held: Option<usize>,
    limit: usize,
) -> u64
    requires { plan + (masks + masks) ≤ length work.old }
    ensures { PlanReduced plan masks held limit result work.old work.new }
{
    let end = plan + (masks + masks);
    let t = reduce(&mut work[plan..end], masks, held, limit);
    let aside = t.aside;
    aside.0
}

// The sums by mask, and their plan.
pub(crate) fn plan_rows(
    work: &mut [u64],
    s: Sender,
    plan: usize,
    masks: usize,
    x: Target,
    live: u64,
    ways: u64,
    limit: usize,
) -> SetAside
    requires { (plan + (masks + masks) ≤ length work.old) × Totalling ways x live s plan masks work.old }
    ensures { Planned ways x live s plan masks limit result work.old work.new }
{
    let place = x.place;
    let held = live_place(live, place);
    let over = sum_all(work, s, plan, masks, x, live, ways);
    let planned = reduce_plan(work, plan, masks, held, limit);
    SetAside { over, planned }
}

// The table that receives, when `rows` rows are opened.
fn receiver_of(o: Opening, rows: usize) -> Receiver
    requires { o.slot + slot_words o.contents o.cells < 2 ^ 64 }
    ensures { result ≡ receiver_of o rows }
{
    Receiver {
        numbers: o.numbers,
        cells: o.slot + 4 + 2 * o.contents + 2 * o.cells,
        rows,
        length: o.cells,
    }
}

// A table is opened, the rows of the slot at `from` move to it, and its header and the stage's filled numbers are written. Yields how many rows it has.
pub(crate) fn send_rows(
    work: &mut [u64],
    s: Sender,
    o: Opening,
    from: usize,
    stage: usize,
    x: Target,
    live: u64,
    ways: u64,
) -> usize
    requires { Delivering ways x live s o from stage work.old }
    ensures { Delivered ways x live s o from stage result work.old work.new }
{
    let fronts = from + 4 + 2 * o.contents;
    let rows = open_rows(work, o);
    let t = receiver_of(o, rows);
    move_all(work, s, t, x, live, ways);
    send_header(work, from, o.slot, rows);
    put_groups(
        work,
        fronts,
        fronts + o.cells,
        stage,
        o.cells,
        s.width,
        x,
        ways,
    );
    rows
}
