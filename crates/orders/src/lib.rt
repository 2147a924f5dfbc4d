// Which of two comes first: by two numbers, and of two states in a table.
#![tactic(auto)]

ghost use Rattle.std.specs.Prelude.{◌≡◌, cond};
ghost use Rattle.rules.specs.Ordered.{by_number, then_by, is_before};
ghost use Rattle.rules.specs.Table.{order};
ghost use Rattle.rules.specs.Best.{order as best_order};

use rules::{BestState, State};

// Whether one with the numbers `a` and `b` stands before one with `c` and `d`: by the first, and where that is the same by the second.
pub fn precedes(a: u64, b: u64, c: u64, d: u64) -> bool
    ensures { result ≡ is_before (then_by (by_number a c) (by_number b d)) }
{
    if a < c {
        return true;
    }
    if c < a {
        return false;
    }
    b < d
}

// Whether `s` stands before `t` in a table: by mask, then by misses, then by the filled numbers, set 0 first.
#[tactic(auto, unfolding(rules::specs::Table::order))]
pub fn stands_before(s: State, t: State) -> bool
    ensures { result ≡ is_before (order s t) }
{
    if precedes(s.mask, s.misses, t.mask, t.misses) {
        return true;
    }
    if precedes(t.mask, t.misses, s.mask, s.misses) {
        return false;
    }
    let f = s.filled;
    let g = t.filled;
    precedes(f.front, f.back, g.front, g.back)
}

// Where a state of the best case's table stands as to exactness: 0 for an exact state, 1 for an open one.
pub fn open_flag(exact: bool) -> u64
    ensures { result ≡ cond exact 0 1 }
{
    if exact {
        return 0;
    }
    1
}

// Whether `s` stands before `t` in the best case's table: exact states by mask, misses and hits, and open ones after them.
#[tactic(auto, unfolding(rules::specs::Best::order))]
pub fn best_before(s: BestState, t: BestState) -> bool
    ensures { result ≡ is_before (best_order s t) }
{
    let a = open_flag(s.exact);
    let b = open_flag(t.exact);
    if precedes(a, s.mask, b, t.mask) {
        return true;
    }
    if precedes(b, t.mask, a, s.mask) {
        return false;
    }
    let m = s.misses;
    let h = s.hits;
    let n = t.misses;
    let g = t.hits;
    precedes(m.0, h.0, n.0, g.0)
}
