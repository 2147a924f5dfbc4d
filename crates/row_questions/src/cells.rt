// What is asked of a row of units: whether it is one, the largest miss count, the units above a budget, the smallest budget.
ghost use Rattle.std.specs.Prelude.{◌≡◌, cond, ◌≤◌, eqb, sum};
ghost use Rattle.basics.specs.Sums.{sum_over};
ghost use Rattle.rules.specs.Units.{whole};
ghost use Rattle.rules.specs.Questions.{largest, above, smallest_budget};
ghost use Rattle.row_questions.specs.Row.{states_of, is_row};

use rules::Units;

// Whether the units total WHOLE: what is left of it falls to 0, so that no sum can wrap.
fn is_whole(row: &[u64]) -> bool
    ensures { result ≡ eqb (sum_over (λ n. n) row.now) whole }
{
    let whole = Units::WHOLE;
    let mut left = whole.0;
    for units in row {
        if left < *units {
            return false;
        }
        left -= *units;
    }
    left == 0
}

// Whether they are a row: 1 to 4,097 cells with a true total of WHOLE.
pub(crate) fn is_row(row: &[u64]) -> bool
    ensures { result ≡ is_row row.now }
{
    if row.len() < 1 {
        return false;
    }
    if 4097 < row.len() {
        return false;
    }
    is_whole(row)
}

// `at`, if the cell has units, and otherwise the place found before it.
fn last_of(before: u64, at: u64, units: u64) -> u64
    ensures { result ≡ cond (eqb units 0) before at }
{
    if units == 0 {
        return before;
    }
    at
}

// The largest miss count present.
pub(crate) fn largest(row: &[u64]) -> u64
    ensures { result ≡ largest (states_of row.now) }
{
    let mut last: u64 = 0;
    for (i, units) in row.iter().enumerate() {
        last = last_of(last, i as u64, *units);
    }
    last
}

// The units of some cells.
fn units_in(cells: &[u64]) -> u64
    requires { sum cells.now ≤ whole }
    ensures { result ≡ sum cells.now }
{
    cells.iter().sum()
}

// The units above `budget`.
pub(crate) fn units_above(row: &[u64], budget: u64) -> u64
    requires { sum_over (λ n. n) row.now ≤ whole }
    ensures { result ≡ above budget (states_of row.now) }
{
    if row.len() as u64 <= budget {
        return 0;
    }
    units_in(&row[budget as usize + 1..])
}

// The smallest budget whose units above are at most `units`: from the top, up to the cell that passes what is left of them.
pub(crate) fn smallest(row: &[u64], units: u64) -> u64
    ensures { result ≡ smallest_budget units (states_of row.now) }
{
    let mut left = units;
    for at in (0..row.len()).rev() {
        if left < row[at] {
            return at as u64;
        }
        left -= row[at];
    }
    0
}
