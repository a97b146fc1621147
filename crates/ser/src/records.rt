//! The records of the writer's tables.

ghost use Rattle.std.specs.Prelude.{◌≡◌, refl};
ghost use Rattle.ser.specs.Moves.{blank_node, blank_cell};

use chain::{Chain, Linked};
use nodes::children::{Indexed, Parent};
use nodes::marks::Mark;

/// A record of the node table. Its contents are the writer's own.
#[derive(Clone, Copy)]
pub struct Node {
    /// The kind of its values.
    pub(crate) mark: Mark,
    /// The sum of its lengths.
    pub(crate) sum: u64,
    /// Which child of its parent it is.
    pub(crate) index: u32,
    /// The next child of its parent.
    pub(crate) next: usize,
    pub(crate) children: Chain,
    pub(crate) cells: Chain,
    /// Nothing of this node: record k keeps here the k-th node that was marked.
    // Stays: the order of marking lies in the node table; there are never more marked nodes than records, and a table for it would be one more for callers to bring.
    pub(crate) order: usize,
}

/// A record of the cell table. Its contents are the writer's own.
#[derive(Clone, Copy)]
pub struct Cell {
    /// A number, an index or a length.
    pub(crate) value: u64,
    /// Where a text begins in the text table.
    pub(crate) start: usize,
    /// The next value of the same node.
    pub(crate) next: usize,
}

impl Node {
    /// A record to make a table of; what it holds counts for nothing.
    pub fn blank() -> Node
        ensures { result ≡ blank_node }
    {
        Node {
            mark: Mark::Unmarked,
            sum: 0,
            index: 0,
            next: 0,
            children: Chain::empty(),
            cells: Chain::empty(),
            order: 0,
        }
    }
}

impl Cell {
    /// A record to make a table of; what it holds counts for nothing.
    pub fn blank() -> Cell
        ensures { result ≡ blank_cell }
    {
        Cell {
            value: 0,
            start: 0,
            next: 0,
        }
    }
}

impl Linked for Node {
    ghost next_of = { λ n. n.next };

    ghost with_next = { λ n k. record n { next = k } };

    ghost linked = { λ _ _. refl };

    fn next(&self) -> usize {
        self.next
    }

    fn link(&mut self, next: usize) {
        self.next = next;
    }
}

impl Indexed for Node {
    ghost index_of = { λ n. n.index };

    fn index(&self) -> u32 {
        self.index
    }
}

impl Parent for Node {
    ghost children_of = { λ n. n.children };

    ghost with_children = { λ n c. record n { children = c } };

    ghost parental = { λ _ _. refl };

    fn children(&self) -> Chain {
        self.children
    }

    fn set_children(&mut self, children: Chain) {
        self.children = children;
    }
}

// Stays: written out beside that of `Node`, since an `impl` may not be written by a macro here.
impl Linked for Cell {
    ghost next_of = { λ c. c.next };

    ghost with_next = { λ c k. record c { next = k } };

    ghost linked = { λ _ _. refl };

    fn next(&self) -> usize {
        self.next
    }

    fn link(&mut self, next: usize) {
        self.next = next;
    }
}
