//! Numbers by their bits.

ghost use Rattle.std.specs.Prelude.{◌≡◌, ◌^◌, ◌<◌, cond};
ghost use Rattle.document.specs.declared.scalars.Scalar.TheVariants as scalars;
ghost use Rattle.document.specs.Calls.{width};
ghost use Rattle.document.specs.Said.{bits};

use crate::scalars::Scalar;

/// A number by its kind and its bits, which fit the kind's width: a signed number's are its two's complement.
#[derive(Clone, Copy, PartialEq, Eq, Debug)]
pub struct Number {
    pub kind: Scalar,
    pub bits: u64,
    ghost fits: { bits < 2 ^ width kind },
}

impl Number {
    /// The float with these 32 bits.
    pub fn float(bits: u32) -> Number
        ensures kind { result.kind ≡ scalars.F32 }
        ensures same_bits { result.bits ≡ bits }
    {
        Number {
            kind: Scalar::F32,
            bits: u64::from(bits),
        }
    }
}

// Stays: an impl for each type, since each has a kind of its own, and an impl may not be written by a macro here.
impl From<bool> for Number {
    ghost from_gives = { λ b number. (number.kind ≡ scalars.Bool) × (number.bits ≡ cond b 1 0) };

    fn from(b: bool) -> Number {
        Number {
            kind: Scalar::Bool,
            bits: u64::from(b),
        }
    }
}

impl From<u8> for Number {
    ghost from_gives = { λ n number. (number.kind ≡ scalars.U8) × (number.bits ≡ n) };

    fn from(n: u8) -> Number {
        Number {
            kind: Scalar::U8,
            bits: u64::from(n),
        }
    }
}

impl From<u16> for Number {
    ghost from_gives = { λ n number. (number.kind ≡ scalars.U16) × (number.bits ≡ n) };

    fn from(n: u16) -> Number {
        Number {
            kind: Scalar::U16,
            bits: u64::from(n),
        }
    }
}

impl From<u32> for Number {
    ghost from_gives = { λ n number. (number.kind ≡ scalars.U32) × (number.bits ≡ n) };

    fn from(n: u32) -> Number {
        Number {
            kind: Scalar::U32,
            bits: u64::from(n),
        }
    }
}

impl From<u64> for Number {
    ghost from_gives = { λ n number. (number.kind ≡ scalars.U64) × (number.bits ≡ n) };

    fn from(n: u64) -> Number {
        Number {
            kind: Scalar::U64,
            bits: n,
        }
    }
}

impl From<i8> for Number {
    ghost from_gives = { λ z number. (number.kind ≡ scalars.I8) × (number.bits ≡ bits 8 z) };

    fn from(z: i8) -> Number {
        Number {
            kind: Scalar::I8,
            bits: u64::from(z.cast_unsigned()),
        }
    }
}

impl From<i16> for Number {
    ghost from_gives = { λ z number. (number.kind ≡ scalars.I16) × (number.bits ≡ bits 16 z) };

    fn from(z: i16) -> Number {
        Number {
            kind: Scalar::I16,
            bits: u64::from(z.cast_unsigned()),
        }
    }
}

impl From<i32> for Number {
    ghost from_gives = { λ z number. (number.kind ≡ scalars.I32) × (number.bits ≡ bits 32 z) };

    fn from(z: i32) -> Number {
        Number {
            kind: Scalar::I32,
            bits: u64::from(z.cast_unsigned()),
        }
    }
}

impl From<i64> for Number {
    ghost from_gives = { λ z number. (number.kind ≡ scalars.I64) × (number.bits ≡ bits 64 z) };

    fn from(z: i64) -> Number {
        Number {
            kind: Scalar::I64,
            bits: z.cast_unsigned(),
        }
    }
}
