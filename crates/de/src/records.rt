//! The records of the reader's node table.

ghost use Rattle.std.specs.Prelude.{◌≡◌, refl};
ghost use Rattle.de.specs.Moves.{unread};

use chain::{Chain, Linked};
use nodes::children::{Indexed, Parent};
use nodes::marks::Mark;

/// A record of the node table. Its contents are the reader's own.
#[derive(Clone, Copy)]
pub struct Node {
    /// The kind that its columns were read as, if they were.
    pub(crate) mark: Mark,
    /// How many values it has ..
    pub(crate) count: u64,
    /// .. and how many of them were answered.
    pub(crate) done: u64,
    /// The slot of its first value.
    pub(crate) first: usize,
    /// Where its next text stands in the input.
    pub(crate) text: usize,
    /// Which child of its parent it is.
    pub(crate) index: u32,
    /// The next child of its parent.
    pub(crate) next: usize,
    pub(crate) children: Chain,
}

impl Node {
    /// A record to make a table of; what it holds counts for nothing.
    pub fn blank() -> Node
        ensures { result ≡ unread 0 0 }
    {
        Node::unread(0, 0)
    }

    /// The record of a node with so many values whose columns are not read yet.
    pub(crate) fn unread(index: u32, count: u64) -> Node
        ensures { result ≡ unread index count }
    {
        Node {
            mark: Mark::Unmarked,
            count,
            done: 0,
            first: 0,
            text: 0,
            index,
            next: 0,
            children: Chain::empty(),
        }
    }
}

// Stays: written out beside those of the writer's records, since an `impl` may not be written by a macro here.
impl Linked for Node {
    ghost next_of = { λ n. n.next };

    ghost with_next = { λ n k. record n { next = k } };

    ghost linked = { λ _ _. refl };

    fn next(&self) -> usize {
        self.next
    }

    fn link(&mut self, next: usize) {
        self.next = next;
    }
}

impl Indexed for Node {
    ghost index_of = { λ n. n.index };

    fn index(&self) -> u32 {
        self.index
    }
}

impl Parent for Node {
    ghost children_of = { λ n. n.children };

    ghost with_children = { λ n c. record n { children = c } };

    ghost parental = { λ _ _. refl };

    fn children(&self) -> Chain {
        self.children
    }

    fn set_children(&mut self, children: Chain) {
        self.children = children;
    }
}
