// Random pairings that are accepted (document 02, request 11/13). The first join of a graph is handed one, the others none, and the finished table is held to every path and
// budget. Before the first join there is one path to a node, so that the join's two tables are those of straight runs; states that have units left are taken
// at random, and some or all of the units that both have.
use examined::row_calls::worst;
use rules::{Finished, Refusal};
use sequences::input::{edges_of, nodes_of};
use sequences::numbers::{digit, less, plus, read, times};
use sequences::paths::{collect, is_path, sets_of};

// The random number after another.
fn next(random: u64) -> u64 {
    (random % 2147483648 * 1103515245 + 12345) % 2147483648
}

// ---- the units that are left of a table's states

// All of them; a place that the table does not reach has none.
fn take_units(units: &mut [u64; 64], table: &[u64]) {
    units.fill(0);
    for (left, state) in units.iter_mut().zip(table.chunks_exact(5)) {
        *left = state[4];
    }
}

fn left_at(units: &[u64; 64], at: usize) -> u64 {
    units.get(at).copied().unwrap_or(0)
}

fn spend(units: &mut [u64; 64], at: usize, used: u64) {
    if let Some(left) = units.get_mut(at) {
        *left = less(*left, used);
    }
}

// The last place up to `wanted` that has units left, or the first one of all: `found` is that of the places before `at`.
fn better(found: Option<usize>, at: usize, left: u64, wanted: u64) -> Option<usize> {
    if left == 0 {
        return found;
    }
    if at as u64 <= wanted {
        return Some(at);
    }
    found.or(Some(at))
}

fn with_units(units: &[u64; 64], wanted: u64) -> Option<usize> {
    let mut found = None;
    for (at, left) in units.iter().enumerate() {
        found = better(found, at, *left, wanted);
    }
    found
}

// ---- a pairing

fn put(rows: &mut [u64], at: usize, number: u64) {
    if let Some(place) = rows.get_mut(at) {
        *place = number;
    }
}

fn put_row(rows: &mut [u64], row: usize, left: usize, right: usize, units: u64) {
    if 143 < row {
        return;
    }
    put(rows, row * 3, left as u64);
    put(rows, row * 3 + 1, right as u64);
    put(rows, row * 3 + 2, units);
}

// Some of `most` units, at least 1, in the first rows; then all of them, so that each row uses up a state.
fn amount(most: u64, row: usize, random: u64) -> u64 {
    if 8 < row {
        return most;
    }
    plus(digit(times(random, 65535), most), 1)
}

// One row of states that have units left, as many units as both have or fewer. Whether there was one.
fn pair_some(
    rows: &mut [u64],
    row: usize,
    left: &mut [u64; 64],
    right: &mut [u64; 64],
    i: usize,
    j: usize,
    random: u64,
) -> bool {
    let most = left_at(left, i).min(left_at(right, j));
    if most == 0 {
        return false;
    }
    let units = amount(most, row, random);
    put_row(rows, row, i, j, units);
    spend(left, i, units);
    spend(right, j, units);
    true
}

// Rows until no units are left; answers how many. The tables have `m` and `n` states.
pub(crate) fn pair_all(
    rows: &mut [u64],
    left: &mut [u64; 64],
    right: &mut [u64; 64],
    m: usize,
    n: usize,
    seed: u64,
) -> usize {
    let mut random = seed;
    for row in 0..144 {
        let first = next(random);
        let second = next(first);
        random = next(second);
        let i = with_units(left, digit(first / 65536, m as u64));
        let j = with_units(right, digit(second / 65536, n as u64));
        let (Some(i), Some(j)) = (i, j) else {
            return row;
        };
        if !pair_some(rows, row, left, right, i, j, random) {
            return row;
        }
    }
    144
}

// ---- the first join

// The nodes that join first: where the first edge comes from that leads to the same node as the next edge, and where that one does.
pub(crate) fn first_join(edges: &[u32]) -> Option<(u32, u32)> {
    for e in 0..16 {
        let to = read(edges, e * 2 + 1);
        if to != 0 && read(edges, e * 2 + 3) == to {
            return Some((read(edges, e * 2), read(edges, e * 2 + 2)));
        }
    }
    None
}

// The first set of nodes that is a path to `node`.
fn path_to(edges: &[u32], node: u32, sets: u64) -> u64 {
    (0..sets)
        .find(|chosen| is_path(*chosen, edges, node))
        .unwrap_or(0)
}

// How many states an answer's table has.
fn states_of(answer: Result<Finished, Refusal>) -> usize {
    match answer {
        Ok(finished) => finished.states,
        Err(_) => 0,
    }
}

// The units of the table of `node`, which is reached by one path; how many states it has.
pub(crate) fn units_of_node(units: &mut [u64; 64], row: &[u32], limit: u32, node: u32) -> usize {
    let mut result: [u64; 320] = [0; 320];
    let mut path: [u32; 52] = [0; 52];
    let chosen = path_to(edges_of(row), node, sets_of(nodes_of(row)));
    collect(&mut path, row, chosen);
    let states = states_of(worst(&mut result, &path, limit));
    take_units(units, &result);
    states
}
