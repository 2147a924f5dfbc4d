// Rows moved to the table after an access.
ghost use Rattle.std.specs.Prelude.{◌≡◌, ◌≤◌, ◌<◌};
ghost use Rattle.basics.specs.Sums.{sum_over};
ghost use Rattle.rules.specs.Contents.{bit, with, without, shared, held, size};
ghost use Rattle.rules.specs.Shape.{Listed};
ghost use Rattle.tight_rows.specs.Room.{Leaves};
ghost use Rattle.tight.specs.Access.{risk};
ghost use Rattle.tight_rows.specs.Rows.{if};
ghost use Rattle.tight.specs.Moving.{plus, comes, Movable, choosing as choosing_of, miss_comes, row_comes};

use crate::Route;
use crate::rows::add_row;
use crate::sums::comes_to;
use rules::Target;
use tables::{has_block, has_place, size_of, without_place};

// The row comes to `mask`, so many times, each word `shift` cells further on; `live` are all places that a mask may have.
pub(crate) fn move_to(work: &mut [u64], r: Route, mask: u64, live: u64, shift: usize, times: u64)
    requires { Movable r live times work.old × (mask ≤ live) × (shift ≤ 1) }
    ensures { Leaves (plus (comes r shift times mask)) work.old work.new }
{
    let row = work[r.numbers + mask as usize] as usize;
    let to = r.cells + row * r.length + shift;
    add_row(work, r.from, r.select, to, r.width, times);
}

// The row of `mask` loses the block at place `at`, where it is one of `risk`, and comes to what is left, one cell further on.
fn move_one(work: &mut [u64], r: Route, mask: u64, risk: u64, x: Target, live: u64, at: usize)
    requires { Listed 16 x.place × (at < 16) × Movable r live 1 work.old }
    ensures { Leaves (plus (λ w i. if (bit risk at) (comes r 1 1 (shared (with (without mask at) x.place) live) w i))) work.old work.new }
{
    if has_place(risk, at) {
        let end = comes_to(without_place(mask, at), x, live);
        move_to(work, r, end, live, 1, 1);
        return;
    }
}

// The row of `mask` loses each block of `risk`, and comes to what is left, one cell further on.
pub(crate) fn move_lost(work: &mut [u64], r: Route, mask: u64, risk: u64, x: Target, live: u64)
    requires { Listed 16 x.place × Movable r live 16 work.old }
    ensures { Leaves (plus (λ w i. sum_over (λ e. comes r 1 1 (shared (with (without mask e) x.place) live) w i) (held risk))) work.old work.new }
{
    for at in 0..16 {
        move_one(work, r, mask, risk, x, live, at);
    }
}

// The same row, of which other words are chosen.
fn choosing(r: Route, select: usize) -> Route
    ensures { result ≡ choosing_of r select }
{
    Route {
        from: r.from,
        select,
        width: r.width,
        numbers: r.numbers,
        cells: r.cells,
        rows: r.rows,
        length: r.length,
    }
}

// The row of `mask` misses: `r` chooses the words that lose a block, of which it has the part of one way, and `keep` those that lose none.
fn move_miss(work: &mut [u64], r: Route, keep: usize, mask: u64, x: Target, live: u64, ways: u64)
    requires { Listed 16 x.place × (ways ≤ 16) × (size (risk x mask) ≤ ways) × Movable r live 33 work.old × Movable (choosing_of r keep) live 33 work.old }
    ensures { Leaves (plus (miss_comes ways x live r keep mask)) work.old work.new }
{
    let risk = mask & x.mates;
    let others = ways - size_of(risk);
    let end = comes_to(mask, x, live);
    move_lost(work, r, mask, risk, x, live);
    move_to(work, r, end, live, 1, others);
    move_to(work, choosing(r, keep), end, live, 1, 1);
}

// The row of `mask` comes to where it goes: `r` chooses the words that lose a block, `keep` those that lose none, and `all` every word.
pub(crate) fn move_contents(
    work: &mut [u64],
    r: Route,
    keep: usize,
    all: usize,
    mask: u64,
    x: Target,
    live: u64,
    ways: u64,
)
    requires { Listed 16 x.place × (ways ≤ 16) × (size (risk x mask) ≤ ways) × Movable r live 33 work.old × Movable (choosing_of r keep) live 33 work.old × Movable (choosing_of r all) live 1 work.old }
    ensures { Leaves (plus (row_comes ways x live r keep all mask)) work.old work.new }
{
    let place = x.place;
    if has_block(mask, x.again, place) {
        move_to(work, choosing(r, all), mask & live, live, 0, 1);
        return;
    }
    if mask & x.mates == 0 {
        let end = comes_to(mask, x, live);
        move_to(work, choosing(r, all), end, live, 1, 1);
        return;
    }
    move_miss(work, r, keep, mask, x, live, ways);
}
