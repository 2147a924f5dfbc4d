// The quick question of document 02, request 5/13: it is asked of a lent spread, or of any row of numbers.
#![tactic(auto)]

ghost use Rattle.std.specs.Prelude.{◌≡◌};
ghost use Rattle.rules.specs.Within.{is_within};

// A quick yes or no: whether the numbers of a spread, or of any row, at places above the budget sum to at most the allowance. They are added from
// the top end downwards, up to the first that passes it. What is left of the allowance falls, so that no sum can wrap.
pub fn within(spread: &[u64], budget: u64, allowance: u64) -> bool
    ensures { result ≡ is_within spread.now budget allowance }
{
    if spread.len() as u64 <= budget {
        return true;
    }
    let first = budget as usize + 1;
    let mut left = allowance;
    for at in (first..spread.len()).rev() {
        let units = spread[at];
        if left < units {
            return false;
        }
        left -= units;
    }
    true
}
