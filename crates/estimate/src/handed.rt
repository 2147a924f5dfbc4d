// A join by what is handed in for it: by a pairing that is accepted, which is read where it stands, or from the front.
ghost use Rattle.std.specs.Prelude.{◌≡◌, true, cond, [], ◌∷◌, ◌+◌, ◌*◌, ◌≤◌, ◌<◌, eqb, length, get_or, take, drop};
ghost use Rattle.rules.specs.AnyTable.{pairing, places_exist, join_by, entry_fits};
ghost use Rattle.rules.specs.Fold.{states, meet as meet_of};
ghost use Rattle.rules.specs.Join.{paired};
ghost use Rattle.rules.specs.Table.{listing, rising, state_at, add as add_of};
ghost use Rattle.rules.specs.Entries.{no_rows, rows_of, rows_told, entry_of};
ghost use Rattle.rules.proofs.Entries.{Formed};
ghost use Rattle.words.specs.Tables.{table_of};
ghost use Rattle.estimate.specs.Rooms.{InScratch};

use crate::join::{add_to_scratch, pair_up};
use crate::memory::load;
use pairings::{NONE, is_accepted};
use rules::Units;
use states::meet;

// How many states the scratch has after a join, and whether what was handed in for it is accepted.
#[derive(Clone, Copy)]
pub(crate) struct Paired {
    pub states: usize,
    pub fits: bool,
}

// The pair of a row, added to the first `n` states of the scratch; how many states it then has.
pub(crate) fn add_pair(work: &mut [u64], n: usize, left: usize, right: usize, row: &[u64]) -> usize
    requires { (20480 + n * 5 + 5 ≤ length work.old) × (rising (take n (drop 4096 (table_of work.old))) ≡ true) × (length row.now ≡ 3) × (left + get_or row.now 0 0 < 4096) × (right + get_or row.now 1 0 < 4096) }
    ensures { InScratch (add_of (meet_of (state_at (table_of work.old) (left + get_or row.now 0 0)) (state_at (table_of work.old) (right + get_or row.now 1 0)) (get_or row.now 2 0) ∷ []) (take n (drop 4096 (table_of work.old)))) result (table_of work.old) (table_of work.new) }
{
    let a = left + row[0] as usize;
    let b = right + row[1] as usize;
    let s = load(work, a);
    let t = load(work, b);
    add_to_scratch(work, n, meet(s, t, Units(row[2])))
}

// The pairs of the rows, into the scratch, which is empty at first, of the `m` states at place `left` and the `k` states at place `right`; how many
// states it then has.
pub(crate) fn pair_rows(
    work: &mut [u64],
    left: usize,
    m: usize,
    right: usize,
    k: usize,
    rows: &[u64],
) -> usize
    requires { (m ≤ 64) × (k ≤ 64) × (left + m ≤ 4096) × (right + k ≤ 4096) × (25920 ≤ length work.old) × (length rows.now ≤ 3264) × (places_exist m k (rows_of rows.now) ≡ true) }
    ensures { InScratch (paired (rows_of rows.now) (take m (drop left (table_of work.old))) (take k (drop right (table_of work.old)))) result (table_of work.old) (table_of work.new) }
{
    let mut n: usize = 0;
    for row in rows.chunks_exact(3) {
        n = add_pair(work, n, left, right, row);
    }
    n
}

// The same where the rows are accepted, and otherwise the walk from the front.
pub(crate) fn pair_given(
    work: &mut [u64],
    left: usize,
    m: usize,
    right: usize,
    k: usize,
    rows: &[u64],
) -> Paired
    requires { (m ≤ 64) × (k ≤ 64) × (left + m ≤ 4096) × (right + k ≤ 4096) × (25920 ≤ length work.old) × (length rows.now ≤ 3264) }
    ensures { InScratch (join_by states (pairing (rows_of rows.now)) (take m (drop left (table_of work.old))) (take k (drop right (table_of work.old)))) result.states (table_of work.old) (table_of work.new) × (result.fits ≡ entry_fits listing (pairing (rows_of rows.now)) (take m (drop left (table_of work.old))) (take k (drop right (table_of work.old)))) }
{
    let first = left * 5;
    let second = right * 5;
    if is_accepted(
        &work[first..first + m * 5],
        &work[second..second + k * 5],
        rows,
    ) {
        let states = pair_rows(work, left, m, right, k, rows);
        return Paired { states, fits: true };
    }
    let states = pair_up(work, left, m, right, k);
    Paired {
        states,
        fits: false,
    }
}

// How many rows the entry for a join has; the number for none where there is no entry.
pub(crate) fn many_of(counts: &[u64], number: usize) -> u64
    ensures { result ≡ get_or counts.now number no_rows }
{
    counts.get(number).copied().unwrap_or(NONE)
}

// How many rows an entry has.
pub(crate) fn rows_in(many: u64) -> usize
    ensures { result ≡ cond (eqb many no_rows) 0 many }
{
    if many == NONE {
        return 0;
    }
    many as usize
}

// How many rows the entries before a join's have together.
pub(crate) fn rows_before(counts: &[u64], number: usize) -> usize
    requires { (number ≤ length counts.now) × (rows_told counts.now < 18446744073709551616) }
    ensures { result ≡ rows_told (take number counts.now) }
{
    counts[..number].iter().map(|many| rows_in(*many)).sum()
}

// The join of the `m` states at place `left` and the `k` states at place `right`, by the entry with this number, into the scratch.
pub(crate) fn pair_entry(
    work: &mut [u64],
    left: usize,
    m: usize,
    right: usize,
    k: usize,
    counts: &[u64],
    rows: &[u64],
    number: usize,
) -> Paired
    requires { (m ≤ 64) × (k ≤ 64) × (left + m ≤ 4096) × (right + k ≤ 4096) × (25920 ≤ length work.old) × Formed (length counts.now) counts.now rows.now }
    ensures { InScratch (join_by states (entry_of counts.now rows.now number) (take m (drop left (table_of work.old))) (take k (drop right (table_of work.old)))) result.states (table_of work.old) (table_of work.new) × (result.fits ≡ entry_fits listing (entry_of counts.now rows.now number) (take m (drop left (table_of work.old))) (take k (drop right (table_of work.old)))) }
{
    let many = many_of(counts, number);
    if many == NONE {
        let states = pair_up(work, left, m, right, k);
        return Paired { states, fits: true };
    }
    let from = rows_before(counts, number) * 3;
    let to = from + many as usize * 3;
    pair_given(work, left, m, right, k, &rows[from..to])
}
