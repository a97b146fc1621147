//! Every refusal, and its number.

ghost use Rattle.std.specs.Prelude.{◌≡◌, [], ◌++◌, codes, decimal, MatchOption, Some};
ghost use Rattle.document.specs.Refusals.{number_of, of_fault};
ghost use Rattle.document.specs.Words.{words_of, place_words, refusal_text};

use column::fault::{Cause, Fault};
use std::error::Error;
use std::fmt;

/// Why a call or a question was refused. Checks run in the order of the numbers.
#[derive(Clone, Copy, PartialEq, Eq, Debug)]
pub enum Refusal {
    /// 1: the root value is complete.
    Complete,
    /// 2: a value past the declared number; `end` before it, or with no seq, map or tuple innermost.
    Count,
    /// 3: a 33rd open place.
    Depth,
    /// 4: the node is of another kind or tuple length.
    Kind,
    /// 5: a variant index above 255.
    Index,
    /// 6: too few node records.
    Nodes,
    /// 7: too few cells or slots.
    Cells,
    /// 8: a column's input ends too early, or a text passes the input.
    Short { layer: u16, column: u32 },
    /// 8: a part that is to be handed out passes the input.
    Past,
    /// 9: a column's bytes stand for no value.
    Bad { layer: u16, column: u32 },
    /// 10: the sum of a node's lengths is 2,251,799,813,685,247 or more.
    Sum,
    /// 11: a text is not well-formed UTF-8.
    Text,
    /// 12: the text table is too full.
    TextTable,
    /// 13: an option's index is above 1.
    Option,
    /// 14: a length of elements or keys without size is above 65,536.
    NoSize,
    /// 15: write-out or finish before the document is complete.
    Early,
    /// 16: the scratch is shorter than the cells taken.
    Scratch,
    /// 17: a column or a text passes the output.
    Room,
    /// 18: bytes are left at finish.
    Left,
}

impl Refusal {
    /// The number of a refusal.
    // Stays: that a refusal has a number, which this method tells, is the project's rule.
    pub fn number(self) -> u8
        ensures { result ≡ number_of self }
    {
        match self {
            Refusal::Complete => 1,
            Refusal::Count => 2,
            Refusal::Depth => 3,
            Refusal::Kind => 4,
            Refusal::Index => 5,
            Refusal::Nodes => 6,
            Refusal::Cells => 7,
            Refusal::Short { .. } | Refusal::Past => 8,
            Refusal::Bad { .. } => 9,
            Refusal::Sum => 10,
            Refusal::Text => 11,
            Refusal::TextTable => 12,
            Refusal::Option => 13,
            Refusal::NoSize => 14,
            Refusal::Early => 15,
            Refusal::Scratch => 16,
            Refusal::Room => 17,
            Refusal::Left => 18,
        }
    }

    /// The refusal that a column's fault makes, with the column's number.
    // Stays: it takes two things, and a `From` of a pair would be no plainer, since `?` has no column to put beside the fault.
    pub fn of_fault(fault: Fault, column: u32) -> Refusal
        ensures { result ≡ of_fault fault column }
    {
        match fault.cause {
            Cause::Room => Refusal::Room,
            Cause::Short => Refusal::Short {
                layer: fault.layer,
                column,
            },
            Cause::Bad => Refusal::Bad {
                layer: fault.layer,
                column,
            },
        }
    }

    /// What a refusal says, without its number and its place.
    fn words(self) -> &'static str
        ensures { result.now ≡ words_of self }
    {
        match self {
            Refusal::Complete => "COMPLETE, the document has its value already",
            Refusal::Count =>
                "COUNT, an end before the declared number of values, or a value past it",
            Refusal::Depth => "DEPTH, more than 32 open places",
            Refusal::Kind => "KIND, the node is of another kind",
            Refusal::Index => "INDEX, a variant above 255",
            Refusal::Nodes => "NODES, too few node records",
            Refusal::Cells => "CELLS, too few cells or slots",
            Refusal::Short { .. } => "SHORT, the input ends too early",
            Refusal::Past => "PAST, a text that passes the input",
            Refusal::Bad { .. } => "BAD, bytes that stand for no value",
            Refusal::Sum => "SUM, the lengths at a node come to too much",
            Refusal::Text => "TEXT, bytes that are no text",
            Refusal::TextTable => "TEXT TABLE, too few bytes for text",
            Refusal::Option => "OPTION, neither none nor some",
            Refusal::NoSize => "NO SIZE, too many elements that take no memory",
            Refusal::Early => "EARLY, the document is not complete",
            Refusal::Scratch => "SCRATCH, fewer elements than cells taken",
            Refusal::Room => "ROOM, more bytes than the output has",
            Refusal::Left => "LEFT, bytes after the document",
        }
    }

    /// The layer and the column of a column's fault.
    fn place(self) -> Option<(u16, u32)>
        ensures { MatchOption result (place_words self ≡ []) (λ p. place_words self ≡ codes ", in column " ++ decimal p.1 ++ codes " at layer " ++ decimal p.0) }
    {
        match self {
            Refusal::Short { layer, column } | Refusal::Bad { layer, column } => Some((
                layer, column,
            )),
            _ => None,
        }
    }
}

/// A refusal in words, with its number, and the column and the layer of a column's fault.
impl fmt::Display for Refusal {
    ghost output = { λ refusal. Some (refusal_text refusal) };

    fn fmt<W: fmt::Write>(&self, f: &mut fmt::Formatter<W>) -> fmt::Result {
        let words = self.words();
        let number = self.number();
        match self.place() {
            Some((layer, column)) => write!(
                f,
                "{words}, in column {column} at layer {layer}; refusal {number}"
            ),
            None => write!(f, "{words}; refusal {number}"),
        }
    }
}

impl Error for Refusal {}
