// One state: whether a table may have its numbers.
ghost use Rattle.std.specs.Prelude.{◌≡◌};
ghost use Rattle.rules.specs.Filling.{bytes_of, numbers_of};
ghost use Rattle.rules.specs.Questions.{all_most, fitting};

use rules::{Filled, State};

// Whether each of the eight filled numbers in `word` is at most 16.
pub(crate) fn all_small(word: u64) -> bool
    ensures { result ≡ all_most 16 (bytes_of 8 word) }
{
    word.to_be_bytes().iter().all(|n| *n <= 16)
}

// Whether each of the sixteen filled numbers is at most 16.
#[tactic(auto, using(crate::proofs::Fitting::all_numbers))]
pub(crate) fn numbers_fit(filled: Filled) -> bool
    ensures { result ≡ all_most 16 (numbers_of filled) }
{
    if all_small(filled.front) {
        return all_small(filled.back);
    }
    false
}

// Whether a table may have `s`: mask at most 65,535, misses at most 4,096, each filled number at most 16, at least 1 unit.
pub(crate) fn is_fitting(s: State) -> bool
    ensures { result ≡ fitting s }
{
    if 65535 < s.mask {
        return false;
    }
    if 4096 < s.misses {
        return false;
    }
    if !numbers_fit(s.filled) {
        return false;
    }
    let u = s.units;
    1 <= u.0
}
