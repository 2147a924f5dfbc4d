// The largest count present, the units at each count, written into lent room, and the spread: of whatever is counted.
ghost use Rattle.std.specs.Prelude.{◌≡◌, ◌+◌, ◌≤◌, ◌<◌, ℕ, length, get_or, set, take};
ghost use Rattle.rules.specs.Units.{whole};
ghost use Rattle.rules.specs.AnyTable.{total};
ghost use Rattle.rules.specs.Counts.{largest as largest_of, counts_below};
ghost use Rattle.any_table.specs.Accepted.{spread_answered, spread_left};

use crate::{Kind, is_table};
use basics::larger;
use rules::Refusal;
use words::span;

// What is counted in the states of a kind of table: misses, or hits.
pub trait Count<K: Kind> {
    ghost count: { K.State → ℕ };

    // How many a state has.
    fn of(s: K::State) -> u64
        ensures { result ≡ count s };
}

// The largest count present.
pub fn largest<K: Kind, C: Count<K>>(words: &[u64]) -> u64
    ensures { result ≡ largest_of C.count (K.states words.now) }
{
    let mut most: u64 = 0;
    for i in 0..words.len() / 5 {
        most = larger(most, C::of(K::state_at(words, i)));
    }
    most
}

// `units` more at `count`.
fn note(room: &mut [u64], count: u64, units: u64)
    requires { (count < length room.old) × (get_or room.old count 0 + units ≤ whole) }
    ensures { room.new ≡ set room.old count (get_or room.old count 0 + units) }
{
    let at = count as usize;
    room[at] += units;
}

// The units at each count that the room has a place for.
fn fill<K: Kind, C: Count<K>>(words: &[u64], room: &mut [u64])
    requires { (largest_of C.count (K.states words.now) < length room.old) × (total K.listing (K.states words.now) ≤ whole) }
    ensures { room.new ≡ counts_below K.listing.units C.count (length room.old) (K.states words.now) }
{
    room.fill(0);
    for i in 0..words.len() / 5 {
        let s = K::state_at(words, i);
        note(room, C::of(s), K::units(s));
    }
}

// The spread of all the states: 7 for words that hold no table, then 8 for room that is too short, which then stays as it was.
fn spread<K: Kind, C: Count<K>>(words: &[u64], room: &mut [u64]) -> Result<u64, Refusal>
    ensures answered { result ≡ spread_answered K.listing K.fitting C.count (K.states words.now) room.old }
    ensures left { room.new ≡ spread_left K.listing K.fitting C.count (K.states words.now) room.old }
{
    if !is_table::<K>(words) {
        return Err(Refusal::Row);
    }
    let last = largest::<K, C>(words);
    if room.len() as u64 <= last {
        return Err(Refusal::SpreadRoom);
    }
    fill::<K, C>(words, room);
    Ok(last)
}

// The units at each count from 0 to the largest present, which is the answer; `room` has zeros beyond it. It is asked of the first `states` states.
pub fn spread_in<K: Kind, C: Count<K>>(
    words: &[u64],
    states: usize,
    room: &mut [u64],
) -> Result<u64, Refusal>
    ensures answered { result ≡ spread_answered K.listing K.fitting C.count (take states (K.states words.now)) room.old }
    ensures left { room.new ≡ spread_left K.listing K.fitting C.count (take states (K.states words.now)) room.old }
{
    let end = span(words.len(), states);
    spread::<K, C>(&words[..end], room)
}
