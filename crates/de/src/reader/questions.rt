//! A reader begins, is asked, and finishes.

ghost use Rattle.std.specs.Prelude.{◌≡◌, vec_len};
ghost use Rattle.document.specs.Reader.{Reading, begin, answer};
ghost use Rattle.nodes.specs.Children.{rooted};
ghost use Rattle.de.specs.Moves.{root_node};
ghost use Rattle.de.specs.Standing.{finishing};
ghost use Rattle.de.specs.Readers.{StandsFor, Tells, KeepsLengths};

use super::Reader;
use crate::columns::Source;
use crate::desk::Desk;
use crate::records::Node;
use crate::store::Tables;
use column::interface::Column;
use document::questions::{Answer, Question};
use document::refusals::Refusal;

/// The tables of a reader, as its caller gets them back.
#[derive(Drop)]
pub struct Parts {
    pub nodes: Vec<Node>,
    pub slots: Vec<u64>,
}

impl<'a, C: Column> Reader<'a, C> {
    /// A reader of this input over these tables, whose lengths are its budget. What they hold counts for nothing, and but for the root's record it stays.
    // Stays: two vectors, as callers have them before there is a reader to give them back in `Parts`.
    pub fn new(kind: &'a C, input: &'a [u8], nodes: Vec<Node>, slots: Vec<u64>) -> Reader<'a, C>
        ensures stands { StandsFor result (begin (vec_len nodes) (vec_len slots) input.now) }
        ensures kind { result.kind.now ≡ kind.now }
        ensures input { result.input.now ≡ input.now }
        ensures nodes { result.desk.tables.nodes.items ≡ rooted nodes.items root_node }
        ensures slots { result.desk.tables.slots ≡ slots }
    {
        let desk = Desk::start(nodes, slots);
        Reader { kind, input, desk }
    }

    /// One question. The answer is that of the definitions in each reading that the reader stands for, which it also stands for after a refusal;
    /// after an answer it stands for the reading that follows. The tables keep their lengths.
    pub fn ask(&mut self, question: Question) -> Result<Answer, Refusal>
        ensures told { (R : Reading) → StandsFor self.old R → Tells self.old self.new R (answer (C.Column.meaning self.old.kind.now) R.store R.places question) result }
        ensures lengths { KeepsLengths self.old self.new }
        ensures kind { self.new.kind ≡ self.old.kind }
        ensures input { self.new.input ≡ self.old.input }
    {
        let source = Source {
            kind: self.kind,
            input: self.input,
        };
        self.desk.ask(&source, question)
    }

    /// Whether the document is complete and no byte is left: `Early` where a place is open, then `Left` where bytes are left.
    pub fn finish(&self) -> Result<(), Refusal>
        ensures { (R : Reading) → StandsFor self.now R → result ≡ finishing R }
    {
        if self.desk.places.depth > 0 {
            return Err(Refusal::Early);
        }
        if self.desk.tables.spot.place < self.input.len() {
            return Err(Refusal::Left);
        }
        Ok(())
    }

    /// The tables, for the next reader.
    pub fn into_tables(self) -> Parts
        ensures nodes { result.nodes ≡ self.entry.desk.tables.nodes }
        ensures slots { result.slots ≡ self.entry.desk.tables.slots }
    {
        let Tables { nodes, slots, .. } = self.desk.tables;
        Parts { nodes, slots }
    }
}
