// What the programs that enumerate share: a graph on a cache, a row of numbers, is handed to the graph call and to the best case's, and their tables are held to the
// choice sequences of every path, which `sequences` counts:
//
// - the units of a table total 2^48, and it has at most K states;
// - on a straight run whose blocks are all tracked, where nothing is set aside: the units of each contents and miss count
//   are its exact share of the choice sequences;
// - on every path and for every budget: the share of the sequences with more misses is at most the units above the budget;
// - on a straight run whose blocks are all tracked: the units above exceed that share by no more than what is set aside;
// - the last two again for every core and for cycle budgets in place of misses: a path's exact cycles are held to the units above the
//   cycle budget, asked with the accesses of the graph's longest path;
// - the longest path has as many accesses as the longest of all paths;
// - from an empty cache of the first revision, where every access is tracked, for every path and number: the units of the best case's table with more misses than the
//   number are at most the share of the sequences with more, and the same of hits; it totals 2^48 too, and is refused where it has to be.
//
// From a used cache only the share of the sequences with more misses, or cycles, is held to the units: that is all that is promised then.
#![tactic(auto)]

mod cores;
mod cycles;
pub mod examine;
mod promises;
pub mod report;
pub mod row_calls;
mod sure;
mod table;
