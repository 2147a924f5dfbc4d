// What the programs `worked` and `worked_apart` ask of a table in words, in misses and in cycles. What has to be answered is worked out here from the table's states,
// with nothing of the questions' own code.
#![tactic(auto)]

mod cores;
pub mod expected;
pub mod in_cycles;
pub mod in_misses;

// Probability 1, in units: 2^48.
pub const WHOLE: u64 = 281474976710656;
