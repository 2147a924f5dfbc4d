// What the programs `worked` and `worked_apart` share: their cases are lines of a text (`fields`), what a call answered becomes numbers (`said`) and what it left in its rooms is
// compared word by word (`rooms`), every comparison is counted (`report`), and answers are written (`shown`).
#![tactic(auto)]

ghost use Rattle.std.specs.Prelude.{◌≡◌, ◌-◌};
ghost use Rattle.case_text.specs.Reports.{capped};

pub mod fields;
pub mod report;
pub mod rooms;
pub mod said;
pub mod shown;

// The largest number: it stands for a sum that does not fit.
pub const MOST: u64 = 18446744073709551615;

pub fn plus(a: u64, b: u64) -> u64
    ensures { result ≡ capped a b }
{
    a.saturating_add(b)
}

pub fn one_less(n: u64) -> u64
    ensures { result ≡ n - 1 }
{
    n.saturating_sub(1)
}
