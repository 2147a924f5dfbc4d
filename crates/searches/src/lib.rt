// Which two states of a table are folded: the one of fewest units and its partner. Words are read here and not written.
#![tactic(auto)]

ghost use Rattle.std.specs.Prelude.{◌≡◌, ◌*◌, ◌≤◌, length};
ghost use Rattle.words.specs.Tables.{table_of};
ghost use Rattle.searches.specs.Searches.{chosen, sought};

use crate::fewest::least;
use crate::memory::load;
use crate::partner::{nearest, nearest_of_all, stands_first};
use folding::partner::is_alike;
use tables::size_of;

mod fewest;
mod memory;
mod partner;

// The places in a table of the two states that a fold makes one.
#[derive(Clone, Copy)]
pub struct Two {
    pub fewest: usize,
    pub partner: usize,
}

// The state of fewest units among `n`, the first that has no more than the least, and its partner. Most often a state alike to it stands not
// far behind it: the first such one is the partner.
fn search(words: &[u64], n: usize) -> Two
    requires { (2 ≤ n) × (n * 5 ≤ length words.now) }
    ensures { result ≡ chosen n (table_of words.now) }
{
    let lowest = least(words, n);
    let units = lowest.units;
    let mut fewest = lowest.from;
    // Kept as a loop: docs/DECISIONS.md ('May a function have two loops?') says this form, the search for the partner nested in that for the state.
    let found = 'search: loop {
        let s = load(words, fewest);
        let u = s.units;
        if units.0 < u.0 {
            fewest += 1;
        } else {
            if !stands_first(words, fewest, s) {
                break 'search Two {
                    fewest,
                    partner: nearest_of_all(words, n, fewest, s, size_of(s.mask)),
                };
            }
            for j in fewest + 1..n {
                if is_alike(s, load(words, j)) {
                    break 'search Two { fewest, partner: j };
                }
            }
            break 'search Two {
                fewest,
                partner: nearest(words, n, fewest, s),
            };
        }
    };
    found
}

// The two of the first `n` states of a table; places 0 and 0 where there are not so many, or fewer than two.
pub fn choose(words: &[u64], n: usize) -> Two
    ensures { result ≡ sought n (table_of words.now) }
{
    if n < 2 {
        return Two {
            fewest: 0,
            partner: 0,
        };
    }
    if words.len() / 5 < n {
        return Two {
            fewest: 0,
            partner: 0,
        };
    }
    search(words, n)
}
