// A pairing that is handed in for a join: document 02, request 11/13. Whether the entries for a graph have the form, and whether a pairing is accepted. It
// is read where it stands, three numbers a row.
#![tactic(auto)]

ghost use Rattle.std.specs.Prelude.{◌≡◌, true, cond, ◌||◌, ◌+◌, ◌*◌, ◌≤◌, eqb, leb, length};
ghost use Rattle.rules.specs.AnyTable.{used_at, is_pair, places_exist, uses_from, fits};
ghost use Rattle.rules.specs.Input.{edges_of, joins_at, joins_to};
ghost use Rattle.rules.specs.Table.{listing};
ghost use Rattle.rules.specs.Entries.{no_rows, rows_of, in_form};
ghost use Rattle.words.specs.Tables.{table_of};
ghost use Rattle.pairings.specs.Rows.{row_at, side_of, used_by};

use words::state_at;

// The number that stands for no pairing, where a number of rows stands otherwise.
pub const NONE: u64 = 18446744073709551615;

// The joins at `node`: one for each edge to it but the first.
pub fn joins_at(edges: &[u32], node: usize) -> usize
    ensures { result ≡ joins_at (edges_of edges.now) node }
{
    let many = edges
        .chunks_exact(2)
        .filter(|edge| edge[1] as usize == node)
        .count();
    many.saturating_sub(1)
}

// The joins at the nodes before `node`.
pub fn joins_to(edges: &[u32], node: usize) -> usize
    ensures { result ≡ joins_to (edges_of edges.now) node }
{
    let mut joins: usize = 0;
    for j in 0..node {
        joins += joins_at(edges, j);
    }
    joins
}

// Whether an entry has no pairing, or one of at most 1,088 rows.
fn is_few(many: u64) -> bool
    ensures { result ≡ (eqb many no_rows || leb many 1088) }
{
    if many == NONE {
        return true;
    }
    many <= 1088
}

// How many numbers the rows of such an entry have.
fn numbers_of(many: u64) -> usize
    requires { (eqb many no_rows || leb many 1088) ≡ true }
    ensures { result ≡ cond (eqb many no_rows) 0 many * 3 }
{
    if many == NONE {
        return 0;
    }
    many as usize * 3
}

// Whether there is an entry for each of so many joins, none of more than 1,088 rows, and just as many rows as the entries say. What is left of the
// rows is counted, which never wraps.
#[tactic(auto, unfolding(rules::specs::Entries::in_form))]
pub fn in_form(joins: usize, counts: &[u64], rows: &[u64]) -> bool
    ensures { result ≡ in_form joins counts.now rows.now }
{
    if counts.len() != joins {
        return false;
    }
    let mut left = rows.len();
    for many in counts {
        if !is_few(*many) {
            return false;
        }
        let numbers = numbers_of(*many);
        if left < numbers {
            return false;
        }
        left -= numbers;
    }
    left == 0
}

// Whether a row has at least 1 unit, and places that exist in tables of `m` and `k` states.
fn is_pair(row: &[u64], m: usize, k: usize) -> bool
    requires { length row.now ≡ 3 }
    ensures { result ≡ is_pair m k (row_at row.now 0) }
{
    if row[2] == 0 {
        return false;
    }
    if m as u64 <= row[0] {
        return false;
    }
    row[1] < k as u64
}

// Whether each row has.
fn places_exist(rows: &[u64], m: usize, k: usize) -> bool
    ensures { result ≡ places_exist m k (rows_of rows.now) }
{
    rows.chunks_exact(3).all(|row| is_pair(row, m, k))
}

// The place that a row has in the second table, or in the first.
fn place_of(row: &[u64], second: bool) -> u64
    requires { length row.now ≡ 3 }
    ensures { result ≡ side_of second (row_at row.now 0) }
{
    if second {
        return row[1];
    }
    row[0]
}

// The units that a row uses at a place of the second table, or of the first.
fn used_by(row: &[u64], second: bool, place: u64) -> u64
    requires { length row.now ≡ 3 }
    ensures { result ≡ used_by second place (row_at row.now 0) }
{
    if place_of(row, second) == place {
        return row[2];
    }
    0
}

// Whether the rows use exactly `units` at a place. What is left of them is counted, which never wraps.
fn spends(rows: &[u64], second: bool, place: u64, units: u64) -> bool
    ensures { result ≡ eqb (used_at (side_of second) place (rows_of rows.now)) units }
{
    let mut left = units;
    for row in rows.chunks_exact(3) {
        let used = used_by(row, second, place);
        if left < used {
            return false;
        }
        left -= used;
    }
    left == 0
}

// Whether the rows use the units of each state of a table exactly.
fn uses_each(words: &[u64], rows: &[u64], second: bool) -> bool
    ensures { result ≡ uses_from listing (side_of second) (rows_of rows.now) 0 (table_of words.now) }
{
    for a in 0..words.len() / 5 {
        let s = state_at(words, a);
        let units = s.units;
        if !spends(rows, second, a as u64, units.0) {
            return false;
        }
    }
    true
}

// Whether the rows are accepted as a pairing of two tables: each has at least 1 unit, every place exists, and each state's units are used exactly.
#[tactic(auto, using(words::proofs::Tables::length_table_of), unfolding(rules::specs::AnyTable::fits))]
pub fn is_accepted(left: &[u64], right: &[u64], rows: &[u64]) -> bool
    ensures { result ≡ fits listing (rows_of rows.now) (table_of left.now) (table_of right.now) }
{
    if !places_exist(rows, left.len() / 5, right.len() / 5) {
        return false;
    }
    if !uses_each(left, rows, false) {
        return false;
    }
    uses_each(right, rows, true)
}
