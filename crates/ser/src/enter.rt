//! A value goes into the tables.

ghost use Rattle.std.specs.Prelude.{◌≡◌, ◌+◌, ◌^◌, ◌<◌, ◌≤◌, [], ◌∷◌, min, true, false, length, is_ok, vec_len};
ghost use Rattle.document.specs.Columns.{limit};
ghost use Rattle.document.specs.Tables.{length_cells};
ghost use Rattle.document.specs.Verdict.{first_of, high_index, ill_formed};
ghost use Rattle.document.specs.declared.refusals.Refusal.TheVariants.{Cells as cells_refusal, Sum as sum_refusal, Text as ill_formed_refusal, TextTable as text_refusal};
ghost use Rattle.document.specs.Calls.{val, none};
ghost use Rattle.document.specs.Said.{said};
ghost use Rattle.nodes.specs.declared.marks.Mark.TheVariants.{Unit as unit_mark};
ghost use Rattle.nodes.specs.Marks.{family_of};
ghost use Rattle.ser.specs.Steps.{opened_at, lone_at, entering, entered_at};
ghost use Rattle.ser.specs.Safe.{RowsSafe};
ghost use Rattle.ser.specs.Brings.{value_in, load_cells, load_extent, letters_in};
ghost use Rattle.ser.specs.Moves.{sheets, node, is_fresh, child_of, branch_in, child as child_record, spawned, named, grown, touched, celled, kept, written, lettered, branched, branch_then, put, put_child, unit_after, entered, entered_child};
ghost use Rattle.ser.specs.Bounds.{GrowSafe, TouchSafe, BranchSafe, KeepSafe, PutSafe};
ghost use Rattle.ser.specs.Tables.{is_other, no_unit, strange_at, nodes_for, lacks_nodes, lacks_cells, lacks_text, is_too_long, weighed_at};

use crate::loads::{Brought, Load};
use crate::records::{Cell, Node};
use crate::store::Tables;
use chain::append;
use document::calls::Call;
use document::limits::{LAST_INDEX, LIMIT, MOST_CELLS, MOST_NODES, MOST_TEXT};
use document::refusals::Refusal;
use nodes::children::{add_child, find};
use nodes::marks::Mark;
use nodes::places::State;
use utf8::well_formed;

/// Whether the call has an index above the highest.
fn is_high(call: Call) -> bool
    ensures { result ≡ high_index (value_in (said call.entry)) }
{
    matches!(call, Call::Variant(i) if i > LAST_INDEX)
}

/// The record of a new child.
fn new_child(index: u32) -> Node
    ensures { result ≡ child_record index }
{
    Node {
        index,
        ..Node::blank()
    }
}

// ---- the verdict

// Stays: the record, the child's record and the call are three parameters, here and below; a struct of them would be taken apart again at each definition that they are handed to.
impl Tables {
    /// The record r, or a blank one past the table's end.
    fn look(&self, r: usize) -> Node
        ensures { result ≡ node (sheets self.now) r }
    {
        self.nodes.get(r).copied().unwrap_or_else(Node::blank)
    }

    /// Whether no value stands at the record r.
    fn is_fresh(&self, r: usize) -> bool
        ensures { result ≡ is_fresh (sheets self.now) r }
    {
        self.look(r).mark == Mark::Unmarked
    }

    /// The record of the child with this index, 0 where there is none.
    fn child(&self, r: usize, index: u32) -> usize
        ensures { result ≡ child_of (sheets self.now) r index }
    {
        find(&self.nodes, self.look(r).children, index)
    }

    /// The record of the child with this index, 0 where there is none, or no index.
    fn branch(&self, r: usize, index: Option<u32>) -> usize
        ensures { result ≡ branch_in (sheets self.now) r index }
    {
        index.map_or(0, |i| self.child(r, i))
    }

    /// Whether the record is marked otherwise.
    fn is_other(&self, r: usize, mark: Mark) -> bool
        ensures { result ≡ is_other (sheets self.now) r mark }
    {
        let old = self.look(r).mark;
        old != Mark::Unmarked && old != mark
    }

    /// Whether the call is a `none` and its child no unit.
    fn is_no_unit(&self, child: usize, call: Call) -> bool
        ensures { result ≡ no_unit (sheets self.now) child (said call.entry) }
    {
        matches!(call, Call::None) && child != 0 && self.is_other(child, Mark::Unit)
    }

    /// Whether the call is of another kind than its node, or its unit than the child.
    fn is_strange(&self, r: usize, child: usize, brought: Brought) -> bool
        ensures { result ≡ strange_at (sheets self.now) r child (said brought.entry.call) }
    {
        let Brought { call, mark, .. } = brought;
        self.is_other(r, mark) || self.is_no_unit(child, call)
    }

    /// The node records that the call takes.
    fn nodes_for(&self, r: usize, child: usize, brought: Brought) -> u64
        ensures answer { result ≡ nodes_for (sheets self.now) r child (said brought.entry.call) }
        ensures few { result < 2 ^ 33 }
    {
        let family = if self.is_fresh(r) {
            u64::from(brought.mark.family())
        } else {
            0
        };
        family + u64::from(child == 0 && brought.index.is_some())
    }

    /// Whether there is no room for so many node records.
    fn lacks_nodes(&self, more: u64) -> bool
        requires { more < 2 ^ 33 }
        ensures { result ≡ lacks_nodes (sheets self.now) more }
    {
        self.used as u64 + more > self.nodes.len().min(MOST_NODES) as u64
    }

    /// Whether there is no room for the cells that the load takes.
    fn lacks_cells(&self, load: Load) -> bool
        ensures { result ≡ lacks_cells (sheets self.now) (length_cells load.extent) }
    {
        let more = load.cells();
        self.taken + more > self.cells.len().min(MOST_CELLS)
    }

    /// Whether the sum of the lengths at r would come to the limit.
    fn is_too_long(&self, r: usize, load: Load) -> bool
        requires { (node (sheets self.now) r).sum < limit }
        ensures { result ≡ is_too_long (sheets self.now) r load.extent }
    {
        load.extent >= LIMIT - self.look(r).sum
    }

    /// The verdict on what r would keep of the call, if it would keep anything.
    #[inline(always)]
    fn judge_load(&self, r: usize, load: Option<Load>) -> Result<(), Refusal>
        requires { (node (sheets self.now) r).sum < limit }
        ensures { result ≡ first_of ((lacks_cells (sheets self.now) (load_cells load), cells_refusal) ∷ (is_too_long (sheets self.now) r (load_extent load), sum_refusal) ∷ []) }
    {
        let Some(load) = load else {
            return Ok(());
        };
        if self.lacks_cells(load) {
            return Err(Refusal::Cells);
        }
        if self.is_too_long(r, load) {
            return Err(Refusal::Sum);
        }
        Ok(())
    }

    /// The verdict on the text that the call brings, if it brings one.
    #[inline(always)]
    fn judge_text(&self, call: Call) -> Result<(), Refusal>
        requires { self.now.filled ≤ vec_len self.now.text }
        ensures { result ≡ first_of ((ill_formed (value_in (said call.entry)), ill_formed_refusal) ∷ (lacks_text (sheets self.now) (length (letters_in (said call.entry))), text_refusal) ∷ []) }
    {
        let Call::Text(letters) = call else {
            return Ok(());
        };
        if well_formed(letters).is_err() {
            return Err(Refusal::Text);
        }
        if self.filled + letters.len() > self.text.len().min(MOST_TEXT) {
            return Err(Refusal::TextTable);
        }
        Ok(())
    }

    /// The verdict on a value at the record r.
    #[inline(always)]
    #[tactic(auto, unfolding(crate::specs::Tables::weighed_at))]
    fn judge(&self, r: usize, child: usize, brought: Brought) -> Result<(), Refusal>
        requires sum { (node (sheets self.now) r).sum < limit }
        requires filled { self.now.filled ≤ vec_len self.now.text }
        ensures { result ≡ weighed_at (sheets self.now) r child (said brought.entry.call) }
    {
        if self.is_strange(r, child, brought) {
            return Err(Refusal::Kind);
        }
        if is_high(brought.call) {
            return Err(Refusal::Index);
        }
        if self.lacks_nodes(self.nodes_for(r, child, brought)) {
            return Err(Refusal::Nodes);
        }
        self.judge_load(r, brought.load)?;
        self.judge_text(brought.call)
    }
}

// ---- the moves

impl Tables {
    /// A new record, as the last child of r.
    // Stays: from here to `branch_out`, beside the reader's: what both do to a table is `add_child`, and how far a table is used is a field of each one's own.
    fn spawn(&mut self, r: usize, index: u32) -> usize
        requires within { (r < vec_len self.old.nodes) × (0 < self.old.used) × (self.old.used < min (vec_len self.old.nodes) 65536) }
        requires tail { (node (sheets self.old) r).children.last < vec_len self.old.nodes }
        ensures place { result ≡ self.old.used }
        ensures tables { sheets self.new ≡ spawned r index (sheets self.old) }
    {
        let place = self.used;
        add_child(&mut self.nodes, r, place, new_child(index)).unwrap();
        self.used += 1;
        place
    }

    /// The node r is marked, and is the next in the order of marking.
    fn name(&mut self, r: usize, mark: Mark)
        requires { (r < vec_len self.old.nodes) × (self.old.marked + 1 < vec_len self.old.nodes) }
        ensures { sheets self.new ≡ named r mark (sheets self.old) }
    {
        self.nodes[r].mark = mark;
        self.marked += 1;
        self.nodes[self.marked].order = r;
    }

    /// So many children of r come into being.
    fn grow(&mut self, r: usize, family: u32)
        requires { GrowSafe (sheets self.old) r family }
        ensures { sheets self.new ≡ grown r family (sheets self.old) }
    {
        for i in 0..family {
            self.spawn(r, i);
        }
    }

    /// The node r is marked by its first value, and its children come with it.
    // Stays: `inline(never)`, since it is done once for each node.
    #[inline(never)]
    fn begin(&mut self, r: usize, mark: Mark)
        requires order { (r < vec_len self.old.nodes) × (self.old.marked + 1 < vec_len self.old.nodes) }
        requires family { GrowSafe (sheets self.old) r (family_of mark) }
        ensures { sheets self.new ≡ grown r (family_of mark) (named r mark (sheets self.old)) }
    {
        self.name(r, mark);
        self.grow(r, mark.family());
    }

    /// A first value marks its node, whose children come with it.
    #[inline(always)]
    fn touch(&mut self, r: usize, mark: Mark)
        requires { TouchSafe (sheets self.old) r mark }
        ensures { sheets self.new ≡ touched r mark (sheets self.old) }
    {
        if self.is_fresh(r) {
            self.begin(r, mark);
        }
    }

    /// A new index gets a record; answers the index's record.
    fn branch_out(&mut self, r: usize, child: usize, index: Option<u32>) -> usize
        requires { BranchSafe (sheets self.old) r child index }
        ensures place { result ≡ branch_then child index (sheets self.old) }
        ensures tables { sheets self.new ≡ branched r child index (sheets self.old) }
    {
        match index {
            Some(i) if child == 0 => self.spawn(r, i),
            _ => child,
        }
    }

    /// A value goes to a cell, as the last of r's; the tables are charged the cells that it takes.
    #[inline(always)]
    fn add_cell(&mut self, r: usize, load: Load)
        requires within { (r < vec_len self.old.nodes) × (0 < self.old.taken) × (self.old.taken + length_cells load.extent ≤ min (vec_len self.old.cells) 1048576) }
        requires last { (node (sheets self.old) r).cells.last < vec_len self.old.cells }
        requires room { (node (sheets self.old) r).sum + load.extent < 2 ^ 64 }
        ensures { sheets self.new ≡ celled r load (sheets self.old) }
    {
        let cells = self.nodes[r].cells;
        let record = Cell {
            value: load.value,
            start: self.filled,
            next: 0,
        };
        let longer = append(&mut self.cells, cells, self.taken, record).unwrap();
        self.nodes[r].sum += load.extent;
        self.nodes[r].cells = longer;
        self.taken += load.cells();
    }

    /// What a node keeps of a call.
    #[inline(always)]
    fn keep(&mut self, r: usize, load: Option<Load>)
        requires { KeepSafe (sheets self.old) r load }
        ensures { sheets self.new ≡ kept r load (sheets self.old) }
    {
        if let Some(load) = load {
            self.add_cell(r, load);
        }
    }

    /// Text bytes go to the text table.
    fn write(&mut self, letters: &[u8])
        requires { self.old.filled + length letters.now ≤ min (vec_len self.old.text) 16777216 }
        ensures { sheets self.new ≡ written letters.now (sheets self.old) }
    {
        let end = self.filled + letters.len();
        self.text[self.filled..end].copy_from_slice(letters);
        self.filled = end;
    }

    /// The letters of a text go to the text table.
    fn write_text(&mut self, call: Call)
        requires { self.old.filled + length (letters_in (said call)) ≤ min (vec_len self.old.text) 16777216 }
        ensures { sheets self.new ≡ lettered (said call.entry) (sheets self.old) }
    {
        if let Call::Text(letters) = call {
            self.write(letters);
        }
    }

    /// One value at the record r; answers the record of its index's child.
    #[inline(always)]
    fn put(&mut self, r: usize, child: usize, brought: Brought) -> usize
        requires { PutSafe (sheets self.old) r child (said brought.call) }
        ensures place { result ≡ put_child r child (said brought.entry.call) (sheets self.old) }
        ensures tables { sheets self.new ≡ put r child (said brought.entry.call) (sheets self.old) }
    {
        self.touch(r, brought.mark);
        let child = self.branch_out(r, child, brought.index);
        self.keep(r, brought.load);
        self.write_text(brought.call);
        child
    }

    /// The unit that follows a `none`, at its child.
    fn unit_after(&mut self, child: usize, call: Call)
        requires { said call ≡ val none → TouchSafe (sheets self.old) child unit_mark }
        ensures { sheets self.new ≡ unit_after (said call.entry) child (sheets self.old) }
    {
        if matches!(call, Call::None) {
            self.touch(child, Mark::Unit);
        }
    }

    /// All that a call does to the tables at r; answers the record of its index's child.
    #[inline(always)]
    fn put_all(&mut self, r: usize, child: usize, brought: Brought) -> usize
        requires put { PutSafe (sheets self.old) r child (said brought.call) }
        requires unit { said brought.call ≡ val none → TouchSafe (put r child (said brought.call) (sheets self.old)) (put_child r child (said brought.call) (sheets self.old)) unit_mark }
        ensures place { result ≡ entered_child r child (said brought.entry.call) (sheets self.old) }
        ensures tables { sheets self.new ≡ entered r child (said brought.entry.call) (sheets self.old) }
    {
        let child = self.put(r, child, brought);
        self.unit_after(child, brought.call);
        child
    }

    /// The place that a value at r opens; `child` is the record of its index's child.
    // Stays: beside the reader's, since a call says what it opens, and an answer does so by its question; a type between them would add a match to each.
    #[inline(always)]
    fn opened(&self, r: usize, child: usize, brought: Brought) -> Option<State>
        ensures { result ≡ opened_at (sheets self.now) r child (said brought.entry.call) }
    {
        let first = self.look(r).children.first;
        match brought.call {
            Call::Some | Call::Variant(_) => Some(State::One { node: child }),
            Call::Seq(n) => Some(State::Items {
                node: first,
                left: n,
            }),
            Call::Map(n) => Some(State::Keys {
                node: first,
                left: n,
            }),
            Call::Tuple(n) => Some(State::Fields {
                node: first,
                left: n,
            }),
            _ => None,
        }
    }

    /// A `tuple 1` at the record r, which leaves the tables as they are.
    fn enter_lone(&self, r: usize) -> Result<Option<State>, Refusal>
        ensures { result ≡ lone_at (sheets self.now) r }
    {
        if self.lacks_nodes(0) {
            return Err(Refusal::Nodes);
        }
        Ok(Some(State::Lone { node: r, left: 1 }))
    }

    /// A value that brings something, at the record r.
    // Stays: `inline(always)`, here and where it stands above, so that each row of `enter` is compiled by itself, without the tests that its call leaves empty.
    #[inline(always)]
    fn enter_brought(&mut self, r: usize, brought: Brought) -> Result<Option<State>, Refusal>
        requires safe { RowsSafe (sheets self.old) }
        requires within { (0 < r) × (r < self.old.used) }
        ensures answer { result ≡ entering (sheets self.old) r (said brought.entry.call) }
        ensures tables { is_ok result ≡ true → sheets self.new ≡ entered_at (sheets self.old) r (said brought.entry.call) }
        ensures same { is_ok result ≡ false → self.new ≡ self.old }
    {
        let child = self.branch(r, brought.index);
        self.judge(r, child, brought)?;
        let child = self.put_all(r, child, brought);
        Ok(self.opened(r, child, brought))
    }

    /// A value at the record r: refused, the tables are as they were; accepted, they hold it. Answers the place that it opens.
    pub(crate) fn enter(&mut self, r: usize, call: Call) -> Result<Option<State>, Refusal>
        requires safe { RowsSafe (sheets self.old) }
        requires within { (0 < r) × (r < self.old.used) }
        ensures answer { result ≡ entering (sheets self.old) r (said call.entry) }
        ensures tables { is_ok result ≡ true → sheets self.new ≡ entered_at (sheets self.old) r (said call.entry) }
        ensures same { is_ok result ≡ false → self.new ≡ self.old }
    {
        if let Some(number) = call.number() {
            return self.enter_brought(r, Brought::number(call, number));
        }
        match call {
            Call::Text(letters) => {
                let length = letters.len() as u64;
                self.enter_brought(r, Brought::length(call, Mark::Text, length))
            }
            Call::Unit => self.enter_brought(r, Brought::bare(call, Mark::Unit)),
            Call::None => self.enter_brought(r, Brought::index(call, 0)),
            Call::Some => self.enter_brought(r, Brought::index(call, 1)),
            Call::Variant(i) => self.enter_brought(r, Brought::index(call, i)),
            Call::Seq(n) => self.enter_brought(r, Brought::length(call, Mark::Seq, n)),
            Call::Map(n) => self.enter_brought(r, Brought::length(call, Mark::Map, n)),
            Call::Tuple(1) => self.enter_lone(r),
            Call::Tuple(n) => self.enter_brought(r, Brought::bare(call, Mark::Tuple(n))),
            _ => self.enter_brought(r, Brought::bare(call, Mark::Unmarked)),
        }
    }
}
