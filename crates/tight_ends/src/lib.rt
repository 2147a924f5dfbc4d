// The row ends of a table of the second curve: which columns of a slot stay, its rows gathered between them, its settled filled numbers and its header.
#![tactic(auto)]

mod ends;
mod row_ends;
mod settle;

// So many columns from the first on, and the units of the others.
#[derive(Clone, Copy)]
pub(crate) struct Part {
    columns: usize,
    units: u64,
}
