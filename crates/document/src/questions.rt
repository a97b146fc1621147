//! The questions that a reader is asked, and its answers.

ghost use Rattle.std.specs.Prelude.{MatchOption};
ghost use Rattle.document.specs.Numbers.{Is, NoNumberIn};

use crate::numbers::Number;
use crate::scalars::Scalar;

/// A question: a call without its value. The flag `no_size` stands for elements or keys that take no memory.
#[derive(Clone, Copy, PartialEq, Eq, Debug)]
pub enum Question {
    Scalar(Scalar),
    Text,
    Unit,
    Option,
    Variant,
    Seq { no_size: bool },
    Map { no_size: bool },
    Tuple(u32),
    End,
}

/// An answer: a call's value. A text's is its place in the input and its length.
#[derive(Clone, Copy, PartialEq, Eq, Debug)]
pub enum Answer {
    Bool(bool),
    U8(u8),
    U16(u16),
    U32(u32),
    U64(u64),
    I8(i8),
    I16(i16),
    I32(i32),
    I64(i64),
    /// A float, by its 32 bits.
    F32(u32),
    Text { place: usize, length: usize },
    Unit,
    None,
    Some,
    Variant(u32),
    Seq(u64),
    Map(u64),
    Tuple,
    End,
}

impl Answer {
    /// The number that this answer is, by its bits; none where it is no number.
    // Stays: a match for each of the two public types; one generic type in place of calls and answers would be no plainer to their users.
    pub fn number(self) -> Option<Number>
        ensures { MatchOption result (NoNumberIn self) (λ n. Is self n.kind n.bits) }
    {
        match self {
            Answer::Bool(b) => Some(b.into()),
            Answer::U8(n) => Some(n.into()),
            Answer::U16(n) => Some(n.into()),
            Answer::U32(n) => Some(n.into()),
            Answer::U64(n) => Some(n.into()),
            Answer::I8(z) => Some(z.into()),
            Answer::I16(z) => Some(z.into()),
            Answer::I32(z) => Some(z.into()),
            Answer::I64(z) => Some(z.into()),
            Answer::F32(bits) => Some(Number::float(bits)),
            _ => None,
        }
    }
}

/// The answer that is this number.
impl From<Number> for Answer {
    ghost from_gives = { λ n a. Is a n.kind n.bits };

    fn from(number: Number) -> Answer {
        match number.kind {
            Scalar::Bool => Answer::Bool(number.bits == 1),
            Scalar::U8 => Answer::U8(number.bits as u8),
            Scalar::U16 => Answer::U16(number.bits as u16),
            Scalar::U32 => Answer::U32(number.bits as u32),
            Scalar::U64 => Answer::U64(number.bits),
            Scalar::I8 => Answer::I8((number.bits as u8).cast_signed()),
            Scalar::I16 => Answer::I16((number.bits as u16).cast_signed()),
            Scalar::I32 => Answer::I32((number.bits as u32).cast_signed()),
            Scalar::I64 => Answer::I64(number.bits.cast_signed()),
            Scalar::F32 => Answer::F32(number.bits as u32),
        }
    }
}
