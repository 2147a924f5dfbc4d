// The rows of two tables, paired: those that share most blocks first, and of these the rows of both tables from the front. Each pair takes as many units as both rows have left.
#![tactic(auto)]

ghost use Rattle.std.specs.Prelude.{◌≡◌, cond, [], ◌∷◌, ◌+◌, ◌≤◌, ◌<◌, min, eqb};
ghost use Rattle.tight_rows.specs.Room.{words_of, Where};
ghost use Rattle.tight_pairs.specs.Matching.{two, row_with, rows_with, turns_to, shared_by, is_side, are_apart, has_room, is_placed, Placed, Pairable, pair_put, PairedTo};

use tables::size_of;
use tight_rows::rows::ends_by;

// The rows of a table that is paired with another: `rows` masks from `masks` on, and as many words from `units` on for what is left of each row's units.
#[derive(Clone, Copy)]
pub struct Side {
    pub masks: usize,
    pub units: usize,
    pub rows: usize,
}

// Two tables that are paired, and the list of their pairs from `pairs` on: for each pair three words, the row of either table and the units.
#[derive(Clone, Copy)]
pub struct Sides {
    pub left: Side,
    pub right: Side,
    pub pairs: usize,
}

// Pair `n` is put down: so many units of rows `i` and `j`.
fn put_pair(work: &mut [u64], p: Sides, i: usize, j: usize, units: u64, n: usize)
    requires { Placed p work.old × (i < p.left.rows) × (j < p.right.rows) × (n < p.left.rows + p.right.rows) × (units ≤ words_of work.old (p.left.units + i)) × (units ≤ words_of work.old (p.right.units + j)) }
    ensures { work.new ≡ pair_put p i j units n work.old }
{
    let to = p.pairs + 3 * n;
    let left = work[p.left.units + i] - units;
    let right = work[p.right.units + j] - units;
    work[to] = i as u64;
    work[to + 1] = j as u64;
    work[to + 2] = units;
    work[p.left.units + i] = left;
    work[p.right.units + j] = right;
}

// Rows `i` and `j` are paired, if both have units left. Yields how many pairs there are then.
fn pair_two(work: &mut [u64], p: Sides, i: usize, j: usize, n: usize) -> usize
    requires { Pairable p n work.old × (i < p.left.rows) × (j < p.right.rows) }
    ensures { PairedTo p (two i j ∷ []) n result work.old work.new }
{
    let units = work[p.left.units + i].min(work[p.right.units + j]);
    if units == 0 {
        return n;
    }
    put_pair(work, p, i, j, units, n);
    n + 1
}

// They are, if they share exactly `blocks` blocks.
fn pair_sharing(work: &mut [u64], p: Sides, blocks: u64, i: usize, j: usize, n: usize) -> usize
    requires { Pairable p n work.old × (i < p.left.rows) × (j < p.right.rows) }
    ensures { PairedTo p (cond (eqb (shared_by p (words_of work.old) i j) blocks) (two i j ∷ []) []) n result work.old work.new }
{
    let shared = work[p.left.masks + i] & work[p.right.masks + j];
    if size_of(shared) == blocks {
        return pair_two(work, p, i, j, n);
    }
    n
}

// Row `i` is paired with all rows that share exactly `blocks` blocks with it.
fn pair_row(work: &mut [u64], p: Sides, blocks: u64, i: usize, pairs: usize) -> usize
    requires { Pairable p pairs work.old × (i < p.left.rows) }
    ensures { PairedTo p (row_with (shared_by p (words_of work.old)) blocks i p.right.rows) pairs result work.old work.new }
{
    let mut n = pairs;
    for j in 0..p.right.rows {
        n = pair_sharing(work, p, blocks, i, j, n);
    }
    n
}

// It is, if it has units left.
fn pair_rest(work: &mut [u64], p: Sides, blocks: u64, i: usize, n: usize) -> usize
    requires { Pairable p n work.old × (i < p.left.rows) }
    ensures { PairedTo p (row_with (shared_by p (words_of work.old)) blocks i p.right.rows) n result work.old work.new }
{
    if work[p.left.units + i] == 0 {
        return n;
    }
    pair_row(work, p, blocks, i, n)
}

// All rows that share exactly `blocks` blocks are paired.
fn pair_rows(work: &mut [u64], p: Sides, blocks: u64, pairs: usize) -> usize
    requires { Pairable p pairs work.old }
    ensures { PairedTo p (rows_with (shared_by p (words_of work.old)) blocks p.right.rows p.left.rows) pairs result work.old work.new }
{
    let mut n = pairs;
    for i in 0..p.left.rows {
        n = pair_rest(work, p, blocks, i, n);
    }
    n
}

// All rows are paired, those that share 16 blocks first. Yields how many pairs there are.
fn pair_all(work: &mut [u64], p: Sides) -> usize
    requires { Placed p work.old }
    ensures { PairedTo p (turns_to (shared_by p (words_of work.old)) p.left.rows p.right.rows 17) 0 result work.old work.new }
{
    let mut n: usize = 0;
    for k in 0..17 {
        n = pair_rows(work, p, 16 - k, n);
    }
    n
}

// Whether the masks of a table and then its units stand before place `end`.
fn is_side(s: Side, end: usize) -> bool
    ensures { result ≡ is_side s end }
{
    if ends_by(s.masks, s.rows, s.units) {
        return ends_by(s.units, s.rows, end);
    }
    false
}

// Whether one table stands before the other.
fn are_apart(p: Sides) -> bool
    ensures { result ≡ are_apart p }
{
    if ends_by(p.left.units, p.left.rows, p.right.masks) {
        return true;
    }
    ends_by(p.right.units, p.right.rows, p.left.masks)
}

// Whether there is room for as many pairs as there are rows, in `all` words.
fn has_room(p: Sides, all: usize) -> bool
    ensures { result ≡ has_room p all }
{
    if all < p.pairs {
        return false;
    }
    ends_by(p.left.rows, p.right.rows, (all - p.pairs) / 3)
}

// Whether all of it is in its place.
fn is_placed(p: Sides, all: usize) -> bool
    ensures { result ≡ is_placed p all }
{
    if !is_side(p.left, p.pairs) {
        return false;
    }
    if !is_side(p.right, p.pairs) {
        return false;
    }
    if !are_apart(p) {
        return false;
    }
    has_room(p, all)
}

// The rows of both tables are paired, if all is in its place; else nothing is done. Yields how many pairs there are.
pub fn pair_contents(work: &mut [u64], p: Sides) -> usize
    ensures { Where (Placed p work.old) (PairedTo p (turns_to (shared_by p (words_of work.old)) p.left.rows p.right.rows 17) 0 result work.old work.new) ((result ≡ 0) × (work.new ≡ work.old)) }
{
    if is_placed(p, work.len()) {
        return pair_all(work, p);
    }
    0
}
