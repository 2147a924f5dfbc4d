// The plain types that the definitions (specs/), the code above this crate and its callers share: document 01, sections 1 to 5.
#![tactic(auto)]

ghost use Rattle.std.specs.Prelude.{◌≡◌};
ghost use Rattle.rules.specs.Units.{split_of, add_of};
ghost use Rattle.rules.specs.Answers.{number_of};
ghost use Rattle.rules.specs.Starts.{start_in, start_from};

// A probability: whole units of 2^-48.
#[repr(C)]
#[derive(Clone, Copy)]
pub struct Units(pub u64);

// A number of units divided by the ways: each way's part, rounded down, and what is left over.
#[derive(Clone, Copy)]
pub struct Share {
    pub part: Units,
    pub rest: Units,
}

impl Units {
    // Probability 1.
    pub const WHOLE: Units = Units(281474976710656);

    // Division by no way gives no part: all is left over.
    pub fn split(self, ways: u64) -> Share
        ensures { result ≡ split_of self ways }
    {
        if ways == 0 {
            Share {
                part: Units(0),
                rest: Units(self.0),
            }
        } else {
            Share {
                part: Units(self.0 / ways),
                rest: Units(self.0 % ways),
            }
        }
    }

    // The sum, which stops at WHOLE.
    pub fn add(self, other: Units) -> Units
        ensures { result ≡ add_of self other }
    {
        let whole = Units::WHOLE;
        if whole.0 <= self.0 {
            return whole;
        }
        if whole.0 - self.0 <= other.0 {
            return whole;
        }
        Units(self.0 + other.0)
    }
}

// How many ways of each of sixteen sets may be filled: a byte for each set, set 0 in the highest byte of `front`, set 8 in that of `back`,
// so that comparing the words compares the numbers, set 0 first.
#[repr(C)]
#[derive(Clone, Copy)]
pub struct Filled {
    pub front: u64,
    pub back: u64,
}

// A state of a table: the contents mask (bit i: the tracked block at place i is surely held), a miss count, how many ways of each set may
// be filled, and units.
#[repr(C)]
#[derive(Clone, Copy)]
pub struct State {
    pub mask: u64,
    pub misses: u64,
    pub filled: Filled,
    pub units: Units,
}

// Hits and misses are counted separately in the best case's table, each as a type of its own, so that a hit count is never taken as a miss count:
// document 02, request 10/13.
#[derive(Clone, Copy)]
pub struct Hits(pub u64);

#[derive(Clone, Copy)]
pub struct Misses(pub u64);

// A state of that table. `exact`: the blocks of the mask are all that is held. Not `exact`, which is called open: anything may be held, and the mask is 0.
#[derive(Clone, Copy)]
pub struct BestState {
    pub exact: bool,
    pub mask: u64,
    pub misses: Misses,
    pub hits: Hits,
    pub units: Units,
}

// The cache: how many sets it has, how many ways a set has, the core's revision, and how it is found.
#[derive(Clone, Copy)]
pub struct Cache {
    pub sets: u32,
    pub ways: u32,
    pub revision: u32,
    pub start: Start,
}

// What an access is after: where its block stands in the list of tracked blocks, if it is tracked, whether it was accessed directly before, the set that it
// belongs to, and the tracked blocks of that set, as a mask.
#[derive(Clone, Copy)]
pub struct Target {
    pub place: Option<usize>,
    pub again: bool,
    pub set: u32,
    pub mates: u64,
}

// How the cache is found before the first access: empty, or used, so that any way may hold any block.
#[derive(Clone, Copy)]
pub enum Start {
    Cold,
    Warm,
}

// A number that says no start.
#[derive(Clone, Copy)]
pub struct NoStart(pub u32);

// 0 says that the cache is empty, 1 that it was used.
impl TryFrom<u32> for Start {
    type Error = NoStart;

    ghost try_from_gives = { λ number r. r ≡ start_in number };

    fn try_from(number: u32) -> Result<Self, NoStart> {
        match number {
            0 => Ok(Start::Cold),
            1 => Ok(Start::Warm),
            _ => Err(NoStart(number)),
        }
    }
}

// Whether the cache was used.
impl From<bool> for Start {
    ghost from_gives = { λ warm r. r ≡ start_from warm };

    fn from(warm: bool) -> Start {
        if warm { Start::Warm } else { Start::Cold }
    }
}

// The places of the two states that a fold makes one: that of fewest units in the table, and its partner's among the others.
#[derive(Clone, Copy)]
pub struct Pair {
    pub fewest: usize,
    pub partner: usize,
}

// Why the work says no: a name for each line of section 5's table, and of document 02's refusals.
#[derive(Clone, Copy)]
pub enum Refusal {
    Text,
    Ways,
    Limit,
    Tracked,
    Accesses,
    Graph,
    Room,
    Row,
    SpreadRoom,
    Sets,
    Revision,
    NoCore,
    UntrackedAccess,
    SecondRevision,
    TraceLength,
    TraceRoom,
    ListingRoom,
    Listing,
    Expansion,
    Pairing,
    Nightly,
}

impl Refusal {
    // Its number there.
    pub fn number(self) -> u64
        ensures { result ≡ number_of self }
    {
        match self {
            Refusal::Text => 9,
            Refusal::Ways => 1,
            Refusal::Limit => 2,
            Refusal::Tracked => 3,
            Refusal::Accesses => 4,
            Refusal::Graph => 5,
            Refusal::Room => 6,
            Refusal::Row => 7,
            Refusal::SpreadRoom => 8,
            Refusal::Sets => 10,
            Refusal::Revision => 11,
            Refusal::NoCore => 16,
            Refusal::UntrackedAccess => 17,
            Refusal::SecondRevision => 18,
            Refusal::TraceLength => 12,
            Refusal::TraceRoom => 21,
            Refusal::ListingRoom => 22,
            Refusal::Listing => 14,
            Refusal::Expansion => 15,
            Refusal::Pairing => 19,
            Refusal::Nightly => 20,
        }
    }
}

// What the graph call answers where it accepts: how many states the finished table has, and the set-aside count.
#[derive(Clone, Copy)]
pub struct Finished {
    pub states: usize,
    pub aside: Units,
}

// A core: the cycles of a hit, and of a miss.
#[derive(Clone, Copy)]
pub struct Core {
    pub hit: u64,
    pub miss: u64,
}
