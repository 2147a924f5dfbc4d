// The independent second program (document 01, end of section 6) for small graphs: every choice sequence of every path, on a little cache of its own as in `enumerate`,
// held to the tables of the graph call and of the best case, as `examined` says; and again for tables of which the first join is by a random pairing that is accepted.
//
// It shares no code with the graph call, the longest path and the questions.
#![tactic(auto)]

use crate::graphs::all_graphs;
use examined::report::{nothing_yet, say_all};

mod graphs;
mod joined;
mod paired_call;
mod pairs;
mod sweep;

fn main() {
    say_all(all_graphs(nothing_yet()));
}
