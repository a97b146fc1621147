//! The calls that a document is made of.

ghost use Rattle.std.specs.Prelude.{◌≡◌, MatchOption};
ghost use Rattle.document.specs.Calls.{scalar, val};
ghost use Rattle.document.specs.Numbers.{NoNumber};
ghost use Rattle.document.specs.Said.{said, asked};
ghost use Rattle.document.specs.Verdict.{Real};

use crate::numbers::Number;
use crate::questions::Question;
use crate::scalars::Scalar;

/// A call: a value, or the end of a seq, map or tuple.
#[derive(Clone, Copy, PartialEq, Eq, Debug)]
pub enum Call<'a> {
    Bool(bool),
    U8(u8),
    U16(u16),
    U32(u32),
    U64(u64),
    I8(i8),
    I16(i16),
    I32(i32),
    I64(i64),
    /// A float, by its 32 bits.
    F32(u32),
    Text(&'a [u8]),
    Unit,
    None,
    Some,
    Variant(u32),
    Seq(u64),
    Map(u64),
    Tuple(u32),
    End,
}

impl Call<'_> {
    /// The question that asks for this call; a seq's and a map's carries the flag.
    pub fn question(self, no_size: bool) -> Question
        ensures answer { result ≡ asked no_size (said self.entry) }
        ensures real { Real (said self.entry) }
    {
        match self {
            Call::Bool(_) => Question::Scalar(Scalar::Bool),
            Call::U8(_) => Question::Scalar(Scalar::U8),
            Call::U16(_) => Question::Scalar(Scalar::U16),
            Call::U32(_) => Question::Scalar(Scalar::U32),
            Call::U64(_) => Question::Scalar(Scalar::U64),
            Call::I8(_) => Question::Scalar(Scalar::I8),
            Call::I16(_) => Question::Scalar(Scalar::I16),
            Call::I32(_) => Question::Scalar(Scalar::I32),
            Call::I64(_) => Question::Scalar(Scalar::I64),
            Call::F32(_) => Question::Scalar(Scalar::F32),
            Call::Text(_) => Question::Text,
            Call::Unit => Question::Unit,
            Call::None | Call::Some => Question::Option,
            Call::Variant(_) => Question::Variant,
            Call::Seq(_) => Question::Seq { no_size },
            Call::Map(_) => Question::Map { no_size },
            Call::Tuple(n) => Question::Tuple(n),
            Call::End => Question::End,
        }
    }

    /// The number that this call says, by its bits; none where it is no number.
    pub fn number(self) -> Option<Number>
        ensures { MatchOption result (NoNumber (said self.entry)) (λ n. said self.entry ≡ val (scalar n.kind n.bits)) }
    {
        match self {
            Call::Bool(b) => Some(b.into()),
            Call::U8(n) => Some(n.into()),
            Call::U16(n) => Some(n.into()),
            Call::U32(n) => Some(n.into()),
            Call::U64(n) => Some(n.into()),
            Call::I8(z) => Some(z.into()),
            Call::I16(z) => Some(z.into()),
            Call::I32(z) => Some(z.into()),
            Call::I64(z) => Some(z.into()),
            Call::F32(bits) => Some(Number::float(bits)),
            _ => None,
        }
    }
}
