// The second curve: an access in code. A table is dense: a row of cells for each contents, all in one lent room of words.
#![tactic(auto)]

mod arrivals;
mod moves;
mod rows;
mod selects;
mod splits;
mod stages;
mod steps;
mod sums;
mod totals;

// A row on its way to a table: `width` words at `from`, as far as those at `select` choose; the number of each mask's row, at `numbers`; and the table's cells, `rows` rows of
// `length` words from `cells` on.
#[derive(Clone, Copy)]
pub(crate) struct Route {
    from: usize,
    select: usize,
    width: usize,
    numbers: usize,
    cells: usize,
    rows: usize,
    length: usize,
}

// The rows that are split: `count` masks from `masks` on, as many rows of `length` words from `rows` on, of which `width` are in use; the row at `select` chooses the cells, and
// what is left over goes to the row at `rest`.
#[derive(Clone, Copy)]
pub(crate) struct Shares {
    masks: usize,
    rows: usize,
    length: usize,
    count: usize,
    select: usize,
    rest: usize,
    width: usize,
}

// A table whose rows an access sends on: `count` masks from `masks` on, their units from `units` on, and as many rows of `length` words from `rows` on, of which `width` are in
// use. The row at `lose` chooses the cells of which a miss evicts a block, the one at `keep` the others, and the one at `all` every cell; at `rest` is what is left over.
#[derive(Clone, Copy)]
pub(crate) struct Sender {
    masks: usize,
    units: usize,
    rows: usize,
    length: usize,
    count: usize,
    width: usize,
    lose: usize,
    keep: usize,
    all: usize,
    rest: usize,
}

// A table that receives them: the number of each mask's row, at `numbers`, and its cells, `rows` rows of `length` words from `cells` on.
#[derive(Clone, Copy)]
pub(crate) struct Receiver {
    numbers: usize,
    cells: usize,
    rows: usize,
    length: usize,
}

// What an access sets aside before the row ends: what is left over where rows are split, and what the plan sets aside.
#[derive(Clone, Copy)]
pub(crate) struct SetAside {
    over: u64,
    planned: u64,
}
