// What is told of a table.
use rules::Units;

// How many states a table has, and the set-aside count.
#[derive(Clone, Copy)]
pub(crate) struct Tally {
    pub states: usize,
    pub aside: Units,
}

// The same of a table that is joined to, and whether every pairing handed in for the joins is accepted so far.
#[derive(Clone, Copy)]
pub(crate) struct Joined {
    pub states: usize,
    pub aside: Units,
    pub fits: bool,
}
