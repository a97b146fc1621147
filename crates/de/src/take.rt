//! An answer is taken: the node's record, its children, and how far the tables are used.

ghost use Rattle.std.specs.Prelude.{◌≡◌, ◌+◌, ◌<◌, ◌≤◌, vec_len};
ghost use Rattle.de.specs.Moves.{sheets, node, spawned, grown, branch_in};
ghost use Rattle.de.specs.Viewed.{viewed, sight};
ghost use Rattle.de.specs.Taken.{GrowSafe, TakeSafe, BranchSafe, columns_with, children_with, taken_in, branched, branch_then, opened_at, occurrences};

use crate::columns::Gain;
use crate::histogram::histogram;
use crate::records::Node;
use crate::store::Tables;
use crate::view::Sight;
use document::questions::{Answer, Question};
use nodes::children::{add_child, find};
use nodes::marks::Mark;
use nodes::places::State;

/// The number of columns of a node of this kind.
fn columns_of(mark: Mark) -> u32
    ensures { result ≡ columns_with mark }
{
    match mark {
        Mark::Scalar(_) | Mark::Enum => 1,
        Mark::Seq | Mark::Map => 2,
        Mark::Text => 3,
        Mark::Unmarked | Mark::Unit | Mark::Tuple(_) => 0,
    }
}

/// How many values each child has that comes with the kind of a node with so many values, and with this sum of lengths.
fn child_count(mark: Mark, count: u64, sum: u64) -> u64
    ensures { result ≡ children_with mark count sum }
{
    match mark {
        Mark::Tuple(_) => count,
        _ => sum,
    }
}

impl Tables {
    /// A new record of a node with so many values, as the last child of r.
    // Stays: from here to `branch_out`, beside the writer's: what both do to a table is `add_child`, and how far a table is used is a field of each one's own.
    fn spawn(&mut self, r: usize, index: u32, count: u64) -> usize
        requires within { (r < vec_len self.old.nodes) × ((0 < self.old.used) × (self.old.used < vec_len self.old.nodes)) }
        requires tail { (node (sheets self.old) r).children.last < vec_len self.old.nodes }
        ensures place { result ≡ self.old.used }
        ensures tables { sheets self.new ≡ spawned r index count (sheets self.old) }
    {
        let place = self.used;
        add_child(&mut self.nodes, r, place, Node::unread(index, count)).unwrap();
        self.used += 1;
        place
    }

    /// So many children of r, each with so many values.
    fn grow(&mut self, r: usize, family: u32, count: u64)
        requires { GrowSafe (sheets self.old) r family }
        ensures { sheets self.new ≡ grown r family count (sheets self.old) }
    {
        for i in 0..family {
            self.spawn(r, i, count);
        }
    }

    /// The next value of the node at the record r is answered, as one of this kind, with so many text bytes. Where its columns were read just now, which came to this,
    /// the tables are used so far, and the children come that its kind brings.
    #[inline(always)]
    pub(crate) fn take_in(
        &mut self,
        r: usize,
        mark: Mark,
        seen: Sight,
        gain: Option<Gain>,
        letters: usize,
    )
        requires safe { TakeSafe (sheets self.old) r (viewed (sheets self.old) r mark gain) letters }
        requires sight { seen ≡ sight (viewed (sheets self.old) r mark gain).node }
        ensures { sheets self.new ≡ taken_in r (viewed (sheets self.old) r mark gain) letters (sheets self.old) }
    {
        let node = &mut self.nodes[r];
        node.mark = mark;
        node.done = seen.done + 1;
        node.first = seen.first;
        node.text = seen.text + letters;
        if let Some(Gain { spot, sum, .. }) = gain {
            self.spot = spot;
            self.columns += columns_of(mark);
            self.grow(r, mark.family(), child_count(mark, seen.count, sum));
        }
    }

    /// The record of the child of r with this index, 0 where there is none, or no index.
    #[inline(always)]
    pub(crate) fn branch(&self, r: usize, index: Option<u32>) -> usize
        requires { r < vec_len self.now.nodes }
        ensures { result ≡ branch_in (sheets self.now) (node (sheets self.now) r) index }
    {
        let children = self.nodes[r].children;
        index.map_or(0, |i| find(&self.nodes, children, i))
    }

    /// How many of the node's values are this index.
    fn occurrences(&self, node: Node, index: u32) -> u64
        requires { (node.first + node.count ≤ vec_len self.now.slots) × (index < 256) }
        ensures { result ≡ occurrences (sheets self.now) node index }
    {
        let first = node.first;
        let counts = histogram(&self.slots[first..first + node.count as usize]);
        counts[index as usize]
    }

    /// A new index gets a record; answers the index's record.
    #[inline(always)]
    pub(crate) fn branch_out(&mut self, r: usize, child: usize, index: Option<u32>) -> usize
        requires { BranchSafe (sheets self.old) r child index }
        ensures place { result ≡ branch_then child index (sheets self.old) }
        ensures tables { sheets self.new ≡ branched r child index (sheets self.old) }
    {
        match index {
            Some(i) if child == 0 => {
                let count = self.occurrences(self.nodes[r], i);
                self.spawn(r, i, count)
            }
            _ => child,
        }
    }

    /// The place that an answer at r opens; `child` is the record of its index's child.
    // Stays: beside the writer's, since an answer opens what it does by its question too; a type between them would add a match to each.
    #[inline(always)]
    pub(crate) fn opened(
        &self,
        r: usize,
        child: usize,
        question: Question,
        answer: Answer,
    ) -> Option<State>
        requires { r < vec_len self.now.nodes }
        ensures { result ≡ opened_at (sheets self.now) r child question answer }
    {
        let first = self.nodes[r].children.first;
        match (answer, question) {
            (Answer::Some | Answer::Variant(_), _) => Some(State::One { node: child }),
            (Answer::Seq(n), _) => Some(State::Items {
                node: first,
                left: n,
            }),
            (Answer::Map(n), _) => Some(State::Keys {
                node: first,
                left: n,
            }),
            (Answer::Tuple, Question::Tuple(1)) => Some(State::Lone { node: r, left: 1 }),
            (Answer::Tuple, Question::Tuple(n)) => Some(State::Fields {
                node: first,
                left: n,
            }),
            _ => None,
        }
    }
}
