// All rows of a table moved to the one after an access, and what is left over of them.
ghost use Rattle.std.specs.Prelude.{◌≡◌, ◌+◌, ◌*◌, ◌^◌, ◌<◌};
ghost use Rattle.basics.proofs.Sums.{sum_to};
ghost use Rattle.rules.specs.Shape.{Listed};
ghost use Rattle.tight_rows.specs.Room.{Leaves};
ghost use Rattle.tight.specs.Moving.{plus, Movable};
ghost use Rattle.tight.specs.Sending.{route_at, rest_route, comes_from, rest_comes, Receiving, RowMovable, Movings};

use crate::moves::{move_contents, move_to};
use crate::sums::comes_to;
use crate::{Receiver, Route, Sender};
use rules::Target;

// Row `k` on its way.
fn route_at(s: Sender, t: Receiver, k: usize) -> Route
    requires { s.rows + k * s.length < 2 ^ 64 }
    ensures { result ≡ route_at t s s.lose k }
{
    Route {
        from: s.rows + k * s.length,
        select: s.lose,
        width: s.width,
        numbers: t.numbers,
        cells: t.cells,
        rows: t.rows,
        length: t.length,
    }
}

// What is left over, on its way.
fn rest_route(s: Sender, t: Receiver) -> Route
    ensures { result ≡ rest_route t s }
{
    Route {
        from: s.rest,
        select: s.all,
        width: s.width,
        numbers: t.numbers,
        cells: t.cells,
        rows: t.rows,
        length: t.length,
    }
}

// Row `k` comes to where it goes.
fn move_row(work: &mut [u64], s: Sender, t: Receiver, k: usize, x: Target, live: u64, ways: u64)
    requires { RowMovable ways x live t s k work.old }
    ensures { Leaves (plus (λ w i. comes_from ways x live t s w i k)) work.old work.new }
{
    let mask = work[s.masks + k];
    let r = route_at(s, t, k);
    move_contents(work, r, s.keep, s.all, mask, x, live, ways);
}

// All rows do.
fn move_rows(work: &mut [u64], s: Sender, t: Receiver, x: Target, live: u64, ways: u64)
    requires { Receiving t live s work.old × Movings ways x t s work.old }
    ensures { Leaves (plus (λ w i. sum_to s.count (comes_from ways x live t s w i))) work.old work.new }
{
    for k in 0..s.count {
        move_row(work, s, t, k, x, live, ways);
    }
}

// What is left over comes to the accessed block alone, one cell further on.
fn move_rest(work: &mut [u64], s: Sender, t: Receiver, x: Target, live: u64)
    requires { Listed 16 x.place × Movable (rest_route t s) live 1 work.old }
    ensures { Leaves (plus (rest_comes x live t s)) work.old work.new }
{
    let end = comes_to(0, x, live);
    let r = rest_route(s, t);
    move_to(work, r, end, live, 1, 1);
}

// All rows come to where they go, and then what is left over.
pub(crate) fn move_all(work: &mut [u64], s: Sender, t: Receiver, x: Target, live: u64, ways: u64)
    requires { Receiving t live s work.old × Movings ways x t s work.old }
    ensures { Leaves (plus (λ w i. sum_to s.count (comes_from ways x live t s w i) + rest_comes x live t s w i)) work.old work.new }
{
    move_rows(work, s, t, x, live, ways);
    move_rest(work, s, t, x, live);
}
