// A row's questions in cycles: document 02, request 9/13. On every core a miss takes longer than a hit, so that the cycles of the longest path rise with
// its misses, and a cycle budget stands for a miss budget.
ghost use Rattle.std.specs.Prelude.{◌≡◌, ◌-◌, ◌/◌, ◌≤◌, ◌<◌, Ok};
ghost use Rattle.rules.specs.Answers.{first};
ghost use Rattle.rules.specs.Cycles.{core_at, cycles_of, above_cycles, smallest_cycles};
ghost use Rattle.row_questions.specs.Row.{states_of, row_cycle_reasons};

use crate::cells::{is_row, largest, smallest, units_above};
use core_list::core_at;
use rules::{Core, Refusal, Units};

// What is decided before any work: 16, then 4, then 7.
pub(crate) fn judged(row: &[u64], core: usize, longest: u64) -> Result<(), Refusal>
    ensures { result ≡ first (row_cycle_reasons core longest row.now) }
{
    if 12 <= core {
        return Err(Refusal::NoCore);
    }
    if 4096 < longest {
        return Err(Refusal::Accesses);
    }
    if !is_row(row) {
        return Err(Refusal::Row);
    }
    if longest < largest(row) {
        return Err(Refusal::Row);
    }
    Ok(())
}

// The cycles of a path of so many accesses and misses.
pub(crate) fn cycles_of(core: Core, accesses: u64, misses: u64) -> u64
    requires { (core.hit ≤ 100) × (core.miss ≤ 100) × (accesses ≤ 4096) × (misses ≤ accesses) }
    ensures { result ≡ cycles_of core accesses misses }
{
    misses * core.miss + (accesses - misses) * core.hit
}

// The misses that a budget pays for: `least` are the cycles without any, and each takes what a miss takes more than a hit.
pub(crate) fn misses_paid(core: Core, least: u64, budget: u64) -> u64
    requires { (core.hit < core.miss) × (least ≤ budget) }
    ensures { result ≡ (budget - least) / (core.miss - core.hit) }
{
    (budget - least) / (core.miss - core.hit)
}

// The units above a cycle budget: those above the misses that it pays for, or all of them where it does not even pay for hits.
pub(crate) fn units_above_cycles(row: &[u64], core: usize, longest: u64, budget: u64) -> u64
    requires { first (row_cycle_reasons core longest row.now) ≡ Ok tt }
    ensures { result ≡ above_cycles (core_at core) longest budget (states_of row.now) }
{
    let c = core_at(core);
    let least = longest * c.hit;
    if least <= budget {
        return units_above(row, misses_paid(c, least, budget));
    }
    let whole = Units::WHOLE;
    whole.0
}

// The smallest cycle budget whose units above are at most `units`: the cycles of the smallest miss budget, or 0 where every unit may be above.
pub(crate) fn fewest_cycles(row: &[u64], core: usize, longest: u64, units: u64) -> u64
    requires { first (row_cycle_reasons core longest row.now) ≡ Ok tt }
    ensures { result ≡ smallest_cycles (core_at core) longest units (states_of row.now) }
{
    let whole = Units::WHOLE;
    if whole.0 <= units {
        return 0;
    }
    cycles_of(core_at(core), longest, smallest(row, units))
}
