// What the programs that enumerate stand on, written down by itself: a little cache, the choice sequences of a path on it, counted by what they end with, the paths of
// a small graph, and access lists one after the other. It shares no code with the graph call and the questions.
//
// Every function takes every argument: what is out of range is answered by 0, by nothing, or by a number that no comparison holds for.
#![tactic(auto)]

mod cache;
pub mod counts;
pub mod input;
pub mod lists;
pub mod numbers;
pub mod paths;
