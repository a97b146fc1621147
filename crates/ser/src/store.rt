//! The three tables, and how far each is used.

ghost use Rattle.std.specs.Prelude.{◌≤◌};

use crate::records::{Cell, Node};

/// The tables of a writer. Record 0 of `nodes` and of `cells` stays unused.
// Stays: records are named by their index, and 0 names none, as the project's rule has it: the tables are the caller's, and no heap is used.
#[derive(Drop)]
pub(crate) struct Tables {
    pub(crate) nodes: Vec<Node>,
    pub(crate) cells: Vec<Cell>,
    pub(crate) text: Vec<u8>,
    /// The first node record that is not in use.
    pub(crate) used: usize,
    /// The first cell that is not taken.
    pub(crate) taken: usize,
    /// The number of text bytes.
    pub(crate) filled: usize,
    /// The number of nodes that are marked.
    pub(crate) marked: usize,
    ghost few_nodes: { used ≤ 65536 },
    ghost few_cells: { taken ≤ 1048576 },
    ghost few_letters: { filled ≤ 16777216 },
}
