//! The marks of nodes.

ghost use Rattle.std.specs.Prelude.{◌≡◌, ◌==◌};
ghost use Rattle.document.specs.Calls.{Kind};
ghost use Rattle.document.specs.Reader.{kin};
ghost use Rattle.nodes.specs.Marks.{mark_number, unsigned, family_of, mark_of};

use document::scalars::Scalar;

/// What a node is marked as by the first value that stands there.
// Stays: a case for a node without a mark; an `Option` would stand round the mark in each record and each match, and say no more.
#[derive(Clone, Copy, PartialEq, Eq, Debug)]
pub enum Mark {
    Unmarked,
    Scalar(Scalar),
    Text,
    Seq,
    Map,
    Enum,
    Unit,
    Tuple(u32),
}

impl Mark {
    /// Marks by number, each its own.
    pub fn number(self) -> u64
        ensures { result ≡ mark_number self }
    {
        match self {
            Mark::Unmarked => 0,
            Mark::Scalar(Scalar::Bool) => 1,
            Mark::Scalar(Scalar::U8) => 2,
            Mark::Scalar(Scalar::U16) => 3,
            Mark::Scalar(Scalar::U32) => 4,
            Mark::Scalar(Scalar::U64) => 5,
            Mark::Scalar(Scalar::I8) => 6,
            Mark::Scalar(Scalar::I16) => 7,
            Mark::Scalar(Scalar::I32) => 8,
            Mark::Scalar(Scalar::I64) => 9,
            Mark::Scalar(Scalar::F32) => 10,
            Mark::Text => 11,
            Mark::Seq => 12,
            Mark::Map => 13,
            Mark::Enum => 14,
            Mark::Unit => 15,
            Mark::Tuple(n) => 16 + u64::from(n),
        }
    }

    /// The mark of unsigned numbers in place of signed ones of the same width.
    fn unsigned(self) -> Mark
        ensures { result ≡ unsigned self }
    {
        match self {
            Mark::Scalar(Scalar::I8) => Mark::Scalar(Scalar::U8),
            Mark::Scalar(Scalar::I16) => Mark::Scalar(Scalar::U16),
            Mark::Scalar(Scalar::I32) => Mark::Scalar(Scalar::U32),
            Mark::Scalar(Scalar::I64) => Mark::Scalar(Scalar::U64),
            _ => self,
        }
    }

    /// Whether two marks are one kind to a reader, to which signed and unsigned numbers of one width are one.
    pub fn is_kin(self, other: Mark) -> bool
        ensures answer { result ≡ (mark_number (unsigned self) == mark_number (unsigned other)) }
        ensures kinds { (J K : Kind) → self ≡ mark_of J → other ≡ mark_of K → result ≡ kin J K }
    {
        self == other || self.unsigned() == other.unsigned()
    }

    /// How many children come with the mark.
    pub fn family(self) -> u32
        ensures { result ≡ family_of self }
    {
        match self {
            Mark::Seq => 1,
            Mark::Map => 2,
            Mark::Tuple(n) => n,
            _ => 0,
        }
    }
}
