// Two states of the best case's table.
ghost use Rattle.std.specs.Prelude.{◌≡◌};
ghost use Rattle.rules.specs.Best.{same_contents};

use rules::BestState;

// Whether both are exact, with the same contents.
pub fn same_contents(s: BestState, t: BestState) -> bool
    ensures { result ≡ same_contents s t }
{
    if s.exact {
        if t.exact {
            return s.mask == t.mask;
        }
        return false;
    }
    false
}
