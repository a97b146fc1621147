//! A writer begins, takes calls, closes, and is written out.

ghost use Rattle.std.specs.Prelude.{◌≡◌, List, [], vec_len};
ghost use Rattle.document.specs.Calls.{Call as Said};
ghost use Rattle.document.specs.Said.{said};
ghost use Rattle.nodes.specs.Children.{rooted};
ghost use Rattle.ser.specs.Moves.{blank_node};
ghost use Rattle.ser.specs.Standing.{Stands, Told, WrittenOut};

use super::{Closed, Writer};
use crate::desk::Desk;
use crate::records::{Cell, Node};
use crate::store::Tables;
use column::interface::Column;
use document::calls::Call;
use document::refusals::Refusal;
use nodes::children::rooted;
use nodes::places::Places;

/// The tables of a writer, as its caller gets them back.
#[derive(Drop)]
pub struct Parts {
    pub nodes: Vec<Node>,
    pub cells: Vec<Cell>,
    pub text: Vec<u8>,
}

impl Writer {
    /// A writer over these tables, whose lengths are its budget. What they hold counts for nothing, and but for the root's record it stays.
    // Stays: three vectors, as callers have them before there is a writer to give them back in `Parts`.
    pub fn new(nodes: Vec<Node>, cells: Vec<Cell>, text: Vec<u8>) -> Writer
        ensures stands { Stands result.desk [] }
        ensures nodes { result.desk.tables.nodes.items ≡ rooted nodes.items blank_node }
        ensures cells { result.desk.tables.cells ≡ cells }
        ensures text { result.desk.tables.text ≡ text }
    {
        let nodes = rooted(nodes, Node::blank());
        let tables = Tables {
            nodes,
            cells,
            text,
            used: 2,
            taken: 1,
            filled: 0,
            marked: 0,
        };
        let desk = Desk {
            tables,
            places: Places::start(),
        };
        Writer { desk }
    }

    /// One call. The answer is the verdict on it after the calls that the writer stands for:
    /// refused, the writer is as it was, tables included; accepted, it stands for one call more.
    pub fn call(&mut self, call: Call) -> Result<(), Refusal>
        ensures { (cs : List Said) → Stands self.old.desk cs → Told self.old.desk self.new.desk cs (said call.entry) result }
    {
        self.desk.call(call)
    }

    /// Closes the writer, which cannot be refused.
    pub fn close(self) -> Closed
        ensures { result.desk ≡ self.desk }
    {
        Closed { desk: self.desk }
    }
}

impl Closed {
    /// Writes the document out, and answers the number of its bytes, which begin the output. It may be repeated, and then says the same.
    ///
    /// `Early` where the document is not complete, then `Scratch` where the scratch is shorter than the cells taken: neither buffer is touched.
    /// Else the whole scratch is zero afterwards. Accepted, no other byte of the output changes; `Room` leaves the whole output zero.
    pub fn write_out<C: Column>(
        &self,
        kind: &C,
        scratch: &mut [u64],
        output: &mut [u8],
    ) -> Result<usize, Refusal>
        ensures { (cs : List Said) → Stands self.now.desk cs → WrittenOut (C.Column.meaning kind.now) cs scratch.old scratch.new output.old output.new result }
    {
        self.desk
            .tables
            .write_out(self.desk.places.depth == 0, kind, scratch, output)
    }

    /// The tables, for the next writer.
    pub fn into_tables(self) -> Parts
        ensures nodes { result.nodes ≡ self.desk.tables.nodes }
        ensures cells { result.cells ≡ self.desk.tables.cells }
        ensures text { result.text ≡ self.desk.tables.text }
    {
        let Tables {
            nodes,
            cells,
            text,
            ..
        } = self.desk.tables;
        Parts { nodes, cells, text }
    }
}
