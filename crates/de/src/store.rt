//! The two tables, and how far each is used.

use crate::columns::Spot;
use crate::records::Node;

/// The tables of a reader. Record 0 of `nodes` and slot 0 stay unused.
// Stays: records are named by their index, and 0 names none, as the project's rule has it: the tables are the caller's, and no heap is used.
#[derive(Drop)]
pub(crate) struct Tables {
    pub(crate) nodes: Vec<Node>,
    /// The values that were read, a node's side by side.
    pub(crate) slots: Vec<u64>,
    /// The first node record that is not in use.
    pub(crate) used: usize,
    /// How far reading came: the first slot that is not taken, and the place of the next column in the input.
    pub(crate) spot: Spot,
    /// The number of columns that were read.
    pub(crate) columns: u32,
}
