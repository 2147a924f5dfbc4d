// The shares of a run that evicts, put to the scratch: all of its states have the same contents then, one miss more, and so many times their parts, which are known by then. They
// stand in order, and mostly their misses go on from place to place.
ghost use Rattle.std.specs.Prelude.{◌≡◌, ◌≢◌, true, [], ◌∷◌, ◌++◌, ◌+◌, ◌*◌, ◌≤◌, ◌<◌, length, set, take, drop};
ghost use Rattle.rules.specs.Shape.{Every};
ghost use Rattle.rules.specs.Table.{order, plus as plus_of, present, rising, add, no_state, state_at};
ghost use Rattle.rules.specs.Units.{whole};
ghost use Rattle.words.specs.Tables.{table_of};
ghost use Rattle.estimate.specs.Placing.{is_same, Passed};
ghost use Rattle.estimate.specs.Rooms.{InScratch};
ghost use Rattle.estimate.specs.Sharing.{share_of, sharing, guessed, Reaches};

use crate::memory::store;
use crate::merge::put_to_scratch;
use crate::placing::Reached;
use rules::{Filled, State, Units};

// What becomes of the state at place `place` where it then has the contents `to` and these units.
pub(crate) fn share_of(work: &[u64], place: usize, to: u64, units: Units) -> State
    requires { (place * 5 + 5 ≤ length work.now) × ((state_at (table_of work.now) place).misses ≤ 4095) }
    ensures { result ≡ share_of to (state_at (table_of work.now) place) units.0 }
{
    let there = place * 5;
    State {
        mask: to,
        misses: work[there + 1] + 1,
        filled: Filled {
            front: work[there + 2],
            back: work[there + 3],
        },
        units,
    }
}

// Whether `s` belongs to the state at place `at` of the scratch: no word is read where those before it decide.
pub(crate) fn is_share(work: &[u64], at: usize, s: State) -> bool
    requires { 20480 + at * 5 + 5 ≤ length work.now }
    ensures { result ≡ is_same (order s (state_at (drop 4096 (table_of work.now)) at)) }
{
    let here = 20480 + at * 5;
    if s.mask != work[here] {
        return false;
    }
    if s.misses != work[here + 1] {
        return false;
    }
    let filled = s.filled;
    if filled.front != work[here + 2] {
        return false;
    }
    filled.back == work[here + 3]
}

// The place of the scratch where the next state of a run mostly stands, if it has so many misses and the run has come to `reached`: misses mostly go on from place to place.
pub(crate) fn guess_share(work: &[u64], reached: Reached, misses: u64) -> usize
    requires { (20480 + reached.states * 5 ≤ length work.now) × (misses ≤ 4096) }
    ensures { result ≡ guessed (drop 4096 (table_of work.now)) reached.states reached.at misses }
{
    if reached.states <= reached.at {
        return reached.at;
    }
    let here = work[20481 + reached.at * 5];
    if here <= misses {
        return reached.at + (misses - here) as usize;
    }
    reached.at
}

// The state at place `at` of the scratch with these units more.
pub(crate) fn add_units(work: &mut [u64], at: usize, units: Units)
    requires { 20480 + at * 5 + 5 ≤ length work.old }
    ensures { table_of work.new ≡ set (table_of work.old) (4096 + at) (plus_of (state_at (drop 4096 (table_of work.old)) at) (share_of 0 no_state units.0)) }
{
    let here = 20484 + at * 5;
    work[here] = Units(work[here]).add(units).0;
}

// What becomes of the state at place `place`, the next one of a run, put to the scratch, where the run has come to `reached`: nothing, if it has no units.
pub(crate) fn add_share(
    work: &mut [u64],
    reached: Reached,
    place: usize,
    to: u64,
    units: Units,
) -> Reached
    requires { (place < 4096) × (reached.at ≤ reached.states) × (20480 + reached.states * 5 ≤ length work.old) × (20480 + length (add (share_of to (state_at (table_of work.old) place) units.0 ∷ []) (take reached.states (drop 4096 (table_of work.old)))) * 5 ≤ length work.old) × (rising (take reached.states (drop 4096 (table_of work.old))) ≡ true) × ((state_at (table_of work.old) place).misses ≤ 4095) × (units.0 ≢ 0 → Passed (share_of to (state_at (table_of work.old) place) units.0) (take reached.states (drop 4096 (table_of work.old))) reached.at) }
    ensures { InScratch (add (share_of to (state_at (table_of work.old) place) units.0 ∷ []) (take reached.states (drop 4096 (table_of work.old)))) result.states (table_of work.old) (table_of work.new) × Reaches (share_of to (state_at (table_of work.old) place) units.0) (take reached.states (drop 4096 (table_of work.old))) reached.at result.at }
{
    if units.0 == 0 {
        return reached;
    }
    let s = share_of(work, place, to, units);
    let near = guess_share(work, reached, s.misses);
    if near < reached.states {
        if is_share(work, near, s) {
            add_units(work, near, units);
            return Reached {
                states: reached.states,
                at: near + 1,
            };
        }
    }
    put_to_scratch(work, reached.at, reached.states, s)
}

// The shares of the `m` states at place `from + start`, a run, which then have the contents `to` and so many times their parts, put to the first `n` states of the scratch, of which
// the first `near` have lower contents; how many states it then has.
pub(crate) fn put_shares(
    work: &mut [u64],
    parts: &[u64],
    n: usize,
    near: usize,
    from: usize,
    start: usize,
    m: usize,
    to: u64,
    times: u64,
) -> usize
    requires { (near ≤ n) × (from + start + m ≤ 4096) × (start + m ≤ length parts.now) × (25920 ≤ length work.old) × (n ≡ length (take n (drop 4096 (table_of work.old)))) × (rising (take n (drop 4096 (table_of work.old))) ≡ true) × (length (add (sharing to times (take m (drop (from + start) (table_of work.old))) (take m (drop start parts.now))) (take n (drop 4096 (table_of work.old)))) ≤ 1088) × (rising (sharing to times (take m (drop (from + start) (table_of work.old))) (take m (drop start parts.now))) ≡ true) × Every (λ s. s.misses ≤ 4095) (take m (drop (from + start) (table_of work.old))) × Every (λ q. q * times ≤ whole) (take m (drop start parts.now)) × Every (λ t. t.mask < to) (take near (take n (drop 4096 (table_of work.old)))) }
    ensures { InScratch (add (sharing to times (take m (drop (from + start) (table_of work.old))) (take m (drop start parts.now))) (take n (drop 4096 (table_of work.old)))) result (table_of work.old) (table_of work.new) }
{
    let mut so_far = Reached {
        states: n,
        at: near,
    };
    for i in 0..m {
        let units = Units(parts[start + i] * times);
        so_far = add_share(work, so_far, from + start + i, to, units);
    }
    so_far.states
}

// What becomes of the state at place `place` where it then has the contents `to` and these units, laid behind the first `n` states of the scratch; how many states it then has.
pub(crate) fn lay(work: &mut [u64], n: usize, place: usize, to: u64, units: Units) -> usize
    requires { (place < 4096) × (20480 + n * 5 ≤ length work.old) × (20480 + length (take n (drop 4096 (table_of work.old)) ++ present (share_of to (state_at (table_of work.old) place) units.0 ∷ [])) * 5 ≤ length work.old) × ((state_at (table_of work.old) place).misses ≤ 4095) }
    ensures { InScratch (take n (drop 4096 (table_of work.old)) ++ present (share_of to (state_at (table_of work.old) place) units.0 ∷ [])) result (table_of work.old) (table_of work.new) }
{
    if units.0 == 0 {
        return n;
    }
    store(work, 4096 + n, share_of(work, place, to, units));
    n + 1
}

// The same as `put_shares`, where all of the first `n` states of the scratch have lower contents.
pub(crate) fn lay_shares(
    work: &mut [u64],
    parts: &[u64],
    n: usize,
    from: usize,
    start: usize,
    m: usize,
    to: u64,
    times: u64,
) -> usize
    requires { (from + start + m ≤ 4096) × (start + m ≤ length parts.now) × (25920 ≤ length work.old) × (n ≡ length (take n (drop 4096 (table_of work.old)))) × (rising (take n (drop 4096 (table_of work.old))) ≡ true) × (length (add (sharing to times (take m (drop (from + start) (table_of work.old))) (take m (drop start parts.now))) (take n (drop 4096 (table_of work.old)))) ≤ 1088) × (rising (sharing to times (take m (drop (from + start) (table_of work.old))) (take m (drop start parts.now))) ≡ true) × Every (λ s. s.misses ≤ 4095) (take m (drop (from + start) (table_of work.old))) × Every (λ q. q * times ≤ whole) (take m (drop start parts.now)) × Every (λ t. t.mask < to) (take n (drop 4096 (table_of work.old))) }
    ensures { InScratch (add (sharing to times (take m (drop (from + start) (table_of work.old))) (take m (drop start parts.now))) (take n (drop 4096 (table_of work.old)))) result (table_of work.old) (table_of work.new) }
{
    let mut states = n;
    for i in 0..m {
        let units = Units(parts[start + i] * times);
        states = lay(work, states, from + start + i, to, units);
    }
    states
}
