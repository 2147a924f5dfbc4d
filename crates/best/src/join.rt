// Joining two tables: both from the front, as many units at a time as the smaller remaining amount allows.
ghost use Rattle.std.specs.Prelude.{◌≡◌, true, [], ◌∷◌, ◌+◌, ◌*◌, ◌≤◌, ◌<◌, length, take, drop};
ghost use Rattle.rules.specs.Best.{listing};
ghost use Rattle.best.specs.Tables.{units_of, rising, add as add_of, join};
ghost use Rattle.words.specs.BestTables.{table_of};
ghost use Rattle.best.specs.Rooms.{InScratch};
ghost use Rattle.tables.specs.Fronts.{front_at, front_after};
ghost use Rattle.best.specs.Pairing.{front_of};

use crate::meeting::pair;
use crate::memory::load;
use crate::placing::add;
use rules::{BestState, Hits, Misses, Units};
use tables::smaller;

// What is first of a table that is walked: its place, and the state there with the units that are left of it.
#[derive(Clone, Copy)]
pub(crate) struct Front {
    pub at: usize,
    pub state: BestState,
}

// What is first from place `at` on, of the `m` states at place `from`; past them, a state of 0 units.
pub(crate) fn front_at(words: &[u64], from: usize, m: usize, at: usize) -> Front
    requires { (from + m) * 5 ≤ length words.now }
    ensures { front_of result ≡ front_at listing (take m (drop from (table_of words.now))) at }
{
    if at < m {
        return Front {
            at,
            state: load(words, from + at),
        };
    }
    Front {
        at,
        state: BestState {
            exact: false,
            mask: 0,
            misses: Misses(0),
            hits: Hits(0),
            units: Units(0),
        },
    }
}

// What is first when `used` units of the first state are used.
pub(crate) fn after(words: &[u64], from: usize, m: usize, front: Front, used: Units) -> Front
    requires { ((from + m) * 5 ≤ length words.now) × (front.at < m) × (used.0 ≤ units_of front.state) }
    ensures { front_of result ≡ front_after listing (take m (drop from (table_of words.now))) used.0 (front_of front) }
{
    let s = front.state;
    let misses = s.misses;
    let hits = s.hits;
    let u = s.units;
    let at = front.at;
    if u.0 == used.0 {
        return front_at(words, from, m, at + 1);
    }
    Front {
        at,
        state: BestState {
            exact: s.exact,
            mask: s.mask,
            misses,
            hits,
            units: Units(u.0 - used.0),
        },
    }
}

// `s` added to the first `n` states of the scratch; how many states it then has.
pub(crate) fn add_to_scratch(work: &mut [u64], n: usize, s: BestState) -> usize
    requires { (20480 + n * 5 + 5 ≤ length work.old) × (rising (take n (drop 4096 (table_of work.old))) ≡ true) }
    ensures { InScratch (add_of (s ∷ []) (take n (drop 4096 (table_of work.old)))) result (table_of work.old) (table_of work.new) }
{
    add(&mut work[20480..], n, s)
}

// The pairs of the `m` states at place `left` and the `k` states at place `right`, into the scratch, which is empty at first; how
// many states it then has.
pub(crate) fn pair_up(work: &mut [u64], left: usize, m: usize, right: usize, k: usize) -> usize
    requires { (m ≤ 64) × (k ≤ 64) × (left + m ≤ 4096) × (right + k ≤ 4096) × (25920 ≤ length work.old) }
    ensures { InScratch (join (take m (drop left (table_of work.old))) (take k (drop right (table_of work.old)))) result (table_of work.old) (table_of work.new) }
{
    let mut n: usize = 0;
    let mut a = front_at(work, left, m, 0);
    let mut b = front_at(work, right, k, 0);
    // Two tables at once: each step goes on in one of them, or in both.
    loop {
        if m <= a.at {
            return n;
        }
        if k <= b.at {
            return n;
        }
        let s = a.state;
        let t = b.state;
        let used = smaller(s.units, t.units);
        n = add_to_scratch(work, n, pair(s, t, used));
        a = after(work, left, m, a, used);
        b = after(work, right, k, b, used);
    }
}
