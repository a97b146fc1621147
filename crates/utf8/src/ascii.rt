//! ASCII at the beginning of a text.

ghost use Rattle.utf8.specs.Ascii.{Past};

/// The highest bit of each of eight bytes, which is 0 in ASCII.
const HIGH_BITS: u64 = 0x8080_8080_8080_8080;

/// What is left of a text after the bytes of ASCII that it begins with: eight are tested at a time, and the last few one by one.
pub(crate) fn past_ascii(text: &[u8]) -> &[u8]
    ensures { Past text.now result.now }
{
    let mut left = text;
    loop {
        left = match left {
            [a, b, c, d, e, f, g, h, rest @ ..]
                if u64::from_le_bytes([*a, *b, *c, *d, *e, *f, *g, *h]) & HIGH_BITS == 0 => rest,
            _ => break,
        }
    }
    loop {
        left = match left {
            [a, rest @ ..] if *a < 0x80 => rest,
            _ => return left,
        }
    }
}
