// The lent room of the second curve: rows of words in it, and a table opened for contents. Words past the end of the room are read as 0 and not written; sums are
// modulo 2^64.
#![tactic(auto)]

pub mod opens;
pub mod rows;

// A table that is opened: the units of `masks` masks at `plan`, where each goes on to at `goes`, the number of its row at `numbers`; and the slot of the table, of `contents`
// rows of `cells` words.
#[derive(Clone, Copy)]
pub struct Opening {
    pub plan: usize,
    pub goes: usize,
    pub numbers: usize,
    pub masks: usize,
    pub slot: usize,
    pub contents: usize,
    pub cells: usize,
}
