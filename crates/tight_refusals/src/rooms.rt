// How many words the second analysis works in, where it is not refused for anything but its rooms.
ghost use Rattle.std.specs.Prelude.{◌≡◌, ◌+◌, ◌*◌, ◌^◌, ◌≤◌, min, length};
ghost use Rattle.rules.specs.Input.{cache};
ghost use Rattle.rules.specs.declared.Start.TheVariants.{Cold};
ghost use Rattle.tight_rules.specs.Asked.{asked_in};
ghost use Rattle.tight_rules.specs.Rooms.{room_needed};

use tight_slots::most_kept;

// The cells that a row has room for: no more than there can be miss counts, and one.
fn row_cells(cells: u64, accesses: u64) -> u64
    requires { accesses ≤ 4096 }
    ensures { result ≡ min cells (accesses + 2) }
{
    if accesses + 2 < cells {
        return accesses + 2;
    }
    cells
}

// The words of a table of `contents` rows of `row` cells.
fn table_words(contents: u64, row: u64) -> u64
    requires { (contents ≤ 4096) × (row ≤ 4098) }
    ensures { result ≡ 4 + 2 * contents + 2 * row + contents * row }
{
    4 + 2 * contents + 2 * row + contents * row
}

// How many masks so many tracked blocks have.
fn masks_of(tracked: u64) -> u64
    requires { tracked ≤ 16 }
    ensures { (result ≡ 2 ^ tracked) × (result ≤ 65536) }
{
    1 << tracked
}

// The words beside the tables: for the plan of an access with so many tracked blocks, for a join, and for rows of one cell more.
fn words_beside(contents: u64, row: u64, tracked: u64) -> u64
    requires { (contents ≤ 4096) × (row ≤ 4098) × (tracked ≤ 16) }
    ensures { result ≡ 3 * 2 ^ tracked + (10 * contents + 10) + 8 * (row + 1) }
{
    3 * masks_of(tracked) + (10 * contents + 10) + 8 * (row + 1)
}

// All of them.
pub(crate) fn words_needed(
    contents: u64,
    cells: u64,
    tracked: &[u32],
    runs: &[u32],
    accesses: &[u32],
    edges: &[u32],
) -> u64
    requires { (contents ≤ 4096) × (cells ≤ 4098) × (length tracked.now ≤ 16) × (length runs.now ≤ 64) × (length accesses.now ≤ 4096) }
    ensures { result ≡ room_needed (asked_in (cache 0 0 0 Cold) contents cells tracked.now runs.now accesses.now edges.now 0 0) }
{
    let row = row_cells(cells, accesses.len() as u64);
    let tables = most_kept(edges, runs.len()) + 3;
    tables * table_words(contents, row) + words_beside(contents, row, tracked.len() as u64)
}
