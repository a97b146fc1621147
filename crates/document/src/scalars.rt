//! The ten kinds of numbers.

ghost use Rattle.std.specs.Prelude.{◌≡◌};
ghost use Rattle.document.specs.Calls.{width};

/// A kind of number: how wide it is, and whether it has a sign. `F32` is a float by its 32 bits.
#[derive(Clone, Copy, PartialEq, Eq, Debug)]
pub enum Scalar {
    Bool,
    U8,
    U16,
    U32,
    U64,
    I8,
    I16,
    I32,
    I64,
    F32,
}

impl Scalar {
    /// The width of its column, in bits.
    pub fn width(self) -> u32
        ensures { result ≡ width self }
    {
        match self {
            Scalar::Bool => 1,
            Scalar::U8 | Scalar::I8 => 8,
            Scalar::U16 | Scalar::I16 => 16,
            Scalar::U32 | Scalar::I32 | Scalar::F32 => 32,
            Scalar::U64 | Scalar::I64 => 64,
        }
    }
}
