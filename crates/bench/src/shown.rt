//! How calls and bytes are printed.

use crate::digest::digest;
use document::calls::Call;
use printing::Hex;
use replay::trip::{Heard, Mismatch};
use std::fmt;

/// A call, as a line.
#[derive(Clone, Copy)]
pub(crate) struct Line<'a>(pub(crate) Call<'a>);

impl fmt::Display for Line<'_> {
    fn fmt<W: fmt::Write>(&self, f: &mut fmt::Formatter<W>) -> fmt::Result {
        match self.0 {
            Call::Bool(b) => write!(f, "bool {b}"),
            Call::U8(n) => write!(f, "u8 {n}"),
            Call::U16(n) => write!(f, "u16 {n}"),
            Call::U32(n) => write!(f, "u32 {n}"),
            Call::U64(n) => write!(f, "u64 {n}"),
            Call::I8(z) => write!(f, "i8 {z}"),
            Call::I16(z) => write!(f, "i16 {z}"),
            Call::I32(z) => write!(f, "i32 {z}"),
            Call::I64(z) => write!(f, "i64 {z}"),
            Call::F32(bits) => write!(f, "f32 {bits}"),
            Call::Text(letters) => write!(f, "text {}", Hex(letters)),
            Call::Unit => write!(f, "unit"),
            Call::None => write!(f, "none"),
            Call::Some => write!(f, "some"),
            Call::Variant(i) => write!(f, "variant {i}"),
            Call::Seq(n) => write!(f, "seq {n}"),
            Call::Map(n) => write!(f, "map {n}"),
            Call::Tuple(n) => write!(f, "tuple {n}"),
            Call::End => write!(f, "end"),
        }
    }
}

/// A document's bytes, by their number and their digest.
#[derive(Clone, Copy)]
pub(crate) struct Bytes<'a>(pub(crate) &'a [u8]);

impl fmt::Display for Bytes<'_> {
    fn fmt<W: fmt::Write>(&self, f: &mut fmt::Formatter<W>) -> fmt::Result {
        write!(f, "{} bytes, digest {:016x}", self.0.len(), digest(self.0))
    }
}

/// What came back of a document.
#[derive(Clone, Copy)]
pub(crate) struct Returned(pub(crate) Heard);

impl fmt::Display for Returned {
    fn fmt<W: fmt::Write>(&self, f: &mut fmt::Formatter<W>) -> fmt::Result {
        let Heard { count, ending } = self.0;
        write!(f, "{count} calls came back")?;
        match ending {
            Ok(()) => write!(f, ", finish accepted"),
            Err(Mismatch::Other) => write!(f, ", then another value"),
            Err(Mismatch::Refused(refusal)) => write!(f, ", then {refusal}"),
        }
    }
}
