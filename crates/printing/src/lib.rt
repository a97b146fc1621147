//! How the programs print bytes and values: one after another, with a space between them.
#![tactic(auto)]

ghost use Rattle.std.specs.Prelude.{◌≡◌, Some};
ghost use Rattle.std.specs.Fmt.{decimal};
ghost use Rattle.printing.specs.Printed.{spaced, hex_pair};

use std::fmt;

/// The two hexadecimal digits of each byte from 0 to 255, one after another.
const PAIRS: &str = "\
000102030405060708090a0b0c0d0e0f101112131415161718191a1b1c1d1e1f\
202122232425262728292a2b2c2d2e2f303132333435363738393a3b3c3d3e3f\
404142434445464748494a4b4c4d4e4f505152535455565758595a5b5c5d5e5f\
606162636465666768696a6b6c6d6e6f707172737475767778797a7b7c7d7e7f\
808182838485868788898a8b8c8d8e8f909192939495969798999a9b9c9d9e9f\
a0a1a2a3a4a5a6a7a8a9aaabacadaeafb0b1b2b3b4b5b6b7b8b9babbbcbdbebf\
c0c1c2c3c4c5c6c7c8c9cacbcccdcecfd0d1d2d3d4d5d6d7d8d9dadbdcdddedf\
e0e1e2e3e4e5e6e7e8e9eaebecedeeeff0f1f2f3f4f5f6f7f8f9fafbfcfdfeff";

/// The two hexadecimal digits of a byte. The table spares the steps that a format with a width takes for each byte.
fn pair(byte: u8) -> &'static str
    ensures { result.now ≡ hex_pair byte }
{
    let start = usize::from(byte) * 2;
    &PAIRS[start..start + 2]
}

/// Bytes, each as two hexadecimal digits.
#[derive(Clone, Copy)]
pub struct Hex<'a>(pub &'a [u8]);

impl fmt::Display for Hex<'_> {
    ghost output = { λ hex. Some (spaced hex_pair hex.0.now) };

    fn fmt<W: fmt::Write>(&self, f: &mut fmt::Formatter<W>) -> fmt::Result {
        if let [first, rest @ ..] = self.0 {
            f.write_str(pair(*first))?;
            for byte in rest {
                f.write_str(" ")?;
                f.write_str(pair(*byte))?;
            }
        }
        Ok(())
    }
}

/// Values, each in decimal digits.
#[derive(Clone, Copy)]
pub struct Spaced<'a>(pub &'a [u64]);

// Stays: beside that of `Hex`, which takes its texts from a table; a function for both, which is passed how to write an item, would need as many lines.
impl fmt::Display for Spaced<'_> {
    ghost output = { λ values. Some (spaced decimal values.0.now) };

    fn fmt<W: fmt::Write>(&self, f: &mut fmt::Formatter<W>) -> fmt::Result {
        if let [first, rest @ ..] = self.0 {
            write!(f, "{first}")?;
            for value in rest {
                write!(f, " {value}")?;
            }
        }
        Ok(())
    }
}
