// One state of the best case: whether a table may have its numbers.
ghost use Rattle.std.specs.Prelude.{◌≡◌, ◌||◌, ◌&&◌, eqb, leb};
ghost use Rattle.rules.specs.BestQuestions.{best_fitting};

use rules::BestState;

// Whether the mask of `s` is one that a table may have: at most 65,535, and 0 where it is open.
pub(crate) fn mask_fits(s: BestState) -> bool
    ensures { result ≡ (leb s.mask 65535 && (s.exact || eqb s.mask 0)) }
{
    if 65535 < s.mask {
        return false;
    }
    if s.exact {
        return true;
    }
    s.mask == 0
}

// Whether a table may have `s`: such a mask, misses and hits at most 4,096 each, at least 1 unit.
pub(crate) fn is_fitting(s: BestState) -> bool
    ensures { result ≡ best_fitting s }
{
    let m = s.misses;
    let h = s.hits;
    let u = s.units;
    if !mask_fits(s) {
        return false;
    }
    if 4096 < m.0 {
        return false;
    }
    if 4096 < h.0 {
        return false;
    }
    1 <= u.0
}
