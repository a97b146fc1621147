//! The children of a node: by their index, and one more.

ghost use Rattle.std.specs.Prelude.{◌≡◌, ℕ, map, length, if◌then◌else◌, Ok, Err, vec_len};
ghost use Rattle.chain.specs.declared.Chain.{Chain as Links};
ghost use Rattle.chain.specs.declared.Fault.TheVariants.{Outside};
ghost use Rattle.chain.specs.Chains.{course};
ghost use Rattle.nodes.specs.Children.{seek, rooted, children_at, can_add, with_child};

use chain::{Chain, Fault, Linked, append, walk};

/// A record that stands in the chain of its node's children, with an index that tells them apart.
pub trait Indexed: Linked {
    // which child of its parent a record is
    ghost index_of: { Self → ℕ };

    /// Which child of its parent it is.
    fn index(&self) -> u32
        ensures { result ≡ index_of self.now };
}

/// A record that has children, which stand in a chain.
pub trait Parent: Indexed {
    // the chain of a record's children
    ghost children_of: { Self → Links };

    // the record with another chain of children
    ghost with_children: { Self → Links → Self };

    /// The chain of its children.
    fn children(&self) -> Chain
        ensures { result ≡ children_of self.now };

    /// Puts another chain of children.
    fn set_children(&mut self, children: Chain)
        ensures { self.new ≡ with_children self.old children };

    ghost parental: { (r : Self) (c : Links) → children_of (with_children r c) ≡ c };
}

/// The first record of the chain that has the index, 0 where there is none.
pub fn find<R: Indexed>(table: &[R], children: Chain, index: u32) -> usize
    ensures { result ≡ seek (map R.Indexed.index_of table.now) index (course (map R.Linked.next_of table.now) children.first) }
{
    let Some(child) = walk(table, children).find(|&k| table[k].index() == index) else {
        return 0;
    };
    child
}

/// The table with this record as the root's, at place 1, if it has that place.
pub fn rooted<R: Copy>(mut table: Vec<R>, root: R) -> Vec<R>
    ensures items { result.items ≡ rooted table.items root }
    ensures length { vec_len result ≡ vec_len table }
{
    if let Some(record) = table.get_mut(1) {
        *record = root;
    }
    table
}

/// Puts a record at `place`, as the last child of `r`. A refusal leaves the table as it was:
/// `r`, the place or the last child lies outside the table, or the place is 0.
pub fn add_child<R: Parent>(table: &mut [R], r: usize, place: usize, child: R) -> Result<(), Fault>
    ensures answer { result ≡ (if can_add (length table.old) (children_at R.children_of table.old r) r place then Ok tt else Err Outside) }
    ensures table { table.new ≡ (if can_add (length table.old) (children_at R.children_of table.old r) r place then with_child R.Linked.with_next R.with_children table.old (children_at R.children_of table.old r) r place child else table.old) }
{
    if r >= table.len() {
        return Err(Fault::Outside);
    }
    let children = table[r].children();
    let longer = append(table, children, place, child)?;
    table[r].set_children(longer);
    Ok(())
}
