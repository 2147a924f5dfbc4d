// The independent second program (document 01, end of section 6). It walks every choice sequence of short straight runs on a little cache of its own, of one, two or
// four sets, of both revisions, empty or used before the first access, counts them, and holds the tables of the graph call and of the best case to the counts: safe,
// tight and exact, as `examined` says. `enumerate_graphs` does the same for small graphs.
//
// It shares no code with the graph call, the longest path and the questions.
#![tactic(auto)]

use crate::straight::all_straight;
use examined::report::{nothing_yet, say_all};

mod straight;
mod sweep;

fn main() {
    say_all(all_straight(nothing_yet()));
}
