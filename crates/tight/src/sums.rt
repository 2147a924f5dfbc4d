// The units that go to each mask at an access, added up in the plan's array.
ghost use Rattle.std.specs.Prelude.{◌≡◌, ℕ, suc, ◌+◌, ◌*◌, ◌^◌, ◌≤◌, ◌<◌, length};
ghost use Rattle.rules.specs.Contents.{bit, with, without, shared};
ghost use Rattle.rules.specs.Shape.{Listed};
ghost use Rattle.tight_rows.specs.Room.{words_of, Leaves};
ghost use Rattle.tight_rows.specs.Rows.{raised, if, comes_to};
ghost use Rattle.tight.specs.Access.{lost_to, miss_to, row_goes, Summable};

use rules::Target;
use tables::{has_block, has_place, size_of, with_block, without_place};
use tight_rows::rows::add_units;

// The contents with the accessed block, as far as they are live.
pub(crate) fn comes_to(mask: u64, x: Target, live: u64) -> u64
    requires { Listed 16 x.place }
    ensures { result ≡ shared (with mask x.place) live }
{
    let place = x.place;
    with_block(mask, place) & live
}

// `units` units of `mask` lose the block at place `at`, where it is one of `risk`.
fn sum_one(
    work: &mut [u64],
    plan: usize,
    mask: u64,
    risk: u64,
    x: Target,
    live: u64,
    units: u64,
    at: usize,
)
    requires { Listed 16 x.place × (at < 16) × (plan + live < length work.old) × ((D : ℕ) → D ≤ live → words_of work.old (plan + D) + units < 2 ^ 64) }
    ensures { Leaves (raised plan (suc live) (λ D. if (bit risk at) (if (comes_to live D (with (without mask at) x.place)) units))) work.old work.new }
{
    if has_place(risk, at) {
        let end = comes_to(without_place(mask, at), x, live);
        add_units(work, plan, end, units);
        return;
    }
}

// Each block of `risk` is lost by `units` units of `mask`.
pub(crate) fn sum_lost(
    work: &mut [u64],
    plan: usize,
    mask: u64,
    risk: u64,
    x: Target,
    live: u64,
    units: u64,
)
    requires { Listed 16 x.place × (plan + live < length work.old) × ((D : ℕ) → D ≤ live → words_of work.old (plan + D) + 16 * units < 2 ^ 64) }
    ensures { Leaves (raised plan (suc live) (λ D. lost_to x (comes_to live D) mask risk units)) work.old work.new }
{
    for at in 0..16 {
        sum_one(work, plan, mask, risk, x, live, units, at);
    }
}

// Units of `mask` that miss: `part` for each way that may lose a block, and `stay` that can lose none.
fn sum_miss(
    work: &mut [u64],
    plan: usize,
    mask: u64,
    part: u64,
    stay: u64,
    x: Target,
    live: u64,
    ways: u64,
)
    requires { Summable ways x plan live mask 0 part stay work.old }
    ensures { Leaves (raised plan (suc live) (λ D. miss_to ways x (comes_to live D) mask part stay)) work.old work.new }
{
    let risk = mask & x.mates;
    let kept = (ways - size_of(risk)) * part + stay;
    let end = comes_to(mask, x, live);
    sum_lost(work, plan, mask, risk, x, live, part);
    add_units(work, plan, end, kept);
}

// A row of `mask` is added to the sums: `all` units, or `part` for each way that may lose a block, and `stay` that can lose none.
pub(crate) fn sum_contents(
    work: &mut [u64],
    plan: usize,
    mask: u64,
    all: u64,
    part: u64,
    stay: u64,
    x: Target,
    live: u64,
    ways: u64,
)
    requires { Summable ways x plan live mask all part stay work.old }
    ensures { Leaves (raised plan (suc live) (λ D. row_goes ways x (comes_to live D) mask all part stay)) work.old work.new }
{
    let place = x.place;
    if has_block(mask, x.again, place) {
        add_units(work, plan, mask & live, all);
        return;
    }
    if mask & x.mates == 0 {
        let end = comes_to(mask, x, live);
        add_units(work, plan, end, all);
        return;
    }
    sum_miss(work, plan, mask, part, stay, x, live, ways);
}
