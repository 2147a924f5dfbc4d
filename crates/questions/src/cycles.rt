// Questions in cycles: document 02, request 9/13. On every core a miss takes longer than a hit, so that the cycles of the longest path rise with
// its misses, and a cycle budget stands for a miss budget.
ghost use Rattle.std.specs.Prelude.{◌≡◌, ◌-◌, ◌/◌, ◌≤◌, ◌<◌, Ok};
ghost use Rattle.rules.specs.Answers.{first};
ghost use Rattle.rules.specs.Cycles.{core_at, cycles_of, above_cycles, smallest_cycles, cycle_reasons, above_cycles_answer, cycle_budget_answer};
ghost use Rattle.words.specs.Tables.{table_of};

use crate::sums::{smallest, units_above};
use core_list::core_at;
use cycle_check::judged;
use rules::{Core, Refusal, Units};

// The cycles of a path of so many accesses and misses.
pub(crate) fn cycles_of(core: Core, accesses: u64, misses: u64) -> u64
    requires { (core.hit ≤ 100) × (core.miss ≤ 100) × (accesses ≤ 4096) × (misses ≤ accesses) }
    ensures { result ≡ cycles_of core accesses misses }
{
    misses * core.miss + (accesses - misses) * core.hit
}

// The misses that a budget pays for: `least` are the cycles without any, and each takes what a miss takes more than a hit.
pub(crate) fn misses_paid(core: Core, least: u64, budget: u64) -> u64
    requires { (core.hit < core.miss) × (least ≤ budget) }
    ensures { result ≡ (budget - least) / (core.miss - core.hit) }
{
    (budget - least) / (core.miss - core.hit)
}

// The units above a cycle budget: those above the misses that it pays for, or all of them where it does not even pay for hits.
pub(crate) fn units_above_cycles(words: &[u64], core: usize, longest: u64, budget: u64) -> u64
    requires { first (cycle_reasons core longest (table_of words.now)) ≡ Ok tt }
    ensures { result ≡ above_cycles (core_at core) longest budget (table_of words.now) }
{
    let c = core_at(core);
    let least = longest * c.hit;
    if least <= budget {
        return units_above(words, misses_paid(c, least, budget));
    }
    let whole = Units::WHOLE;
    whole.0
}

// The smallest cycle budget whose units above are at most `units`: the cycles of the smallest miss budget, or 0 where every unit may be above.
pub(crate) fn fewest_cycles(words: &[u64], core: usize, longest: u64, units: u64) -> u64
    requires { first (cycle_reasons core longest (table_of words.now)) ≡ Ok tt }
    ensures { result ≡ smallest_cycles (core_at core) longest units (table_of words.now) }
{
    let whole = Units::WHOLE;
    if whole.0 <= units {
        return 0;
    }
    cycles_of(core_at(core), longest, smallest(words, units))
}

pub(crate) fn above_cycles_of(
    words: &[u64],
    core: usize,
    longest: u64,
    budget: u64,
) -> Result<Units, Refusal>
    ensures { result ≡ above_cycles_answer (table_of words.now) core longest budget }
{
    judged(words, core, longest)?;
    Ok(Units(units_above_cycles(words, core, longest, budget)))
}

pub(crate) fn cycle_budget_of(
    words: &[u64],
    core: usize,
    longest: u64,
    units: u64,
) -> Result<u64, Refusal>
    ensures { result ≡ cycle_budget_answer (table_of words.now) core longest units }
{
    judged(words, core, longest)?;
    Ok(fewest_cycles(words, core, longest, units))
}
