// Two tables of the second curve joined, part by part: rows of cells become heights, the pairs of their rows come to rows, and heights become cells again.
#![tactic(auto)]

mod meets;
mod piles;

use tight_pairs::Sides;

// So many rows of `length` words from `rows` on, of which the first `width` cells are meant.
#[derive(Clone, Copy)]
pub struct Band {
    pub rows: usize,
    pub length: usize,
    pub count: usize,
    pub width: usize,
}

// Two tables whose rows are heights, from `left` and from `right` on, paired; and the rows that their pairs come to: the number of each mask's row at `numbers`, and its cells in
// `to`. All rows are as long as those, and as many of their cells are meant.
#[derive(Clone, Copy)]
pub struct Meeting {
    pub sides: Sides,
    pub left: usize,
    pub right: usize,
    pub numbers: usize,
    pub to: Band,
}
