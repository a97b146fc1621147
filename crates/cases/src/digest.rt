//! Digests of answers: 64-bit FNV-1a.

ghost use Rattle.std.specs.Prelude.{◌≡◌};
ghost use Rattle.cases.specs.Fnv.{hashed, numbered, code_of, with_read};

use column::fault::{Cause, Fault};

/// The digest of the bytes so far.
#[derive(Clone, Copy)]
pub struct Digest {
    pub state: u64,
}

/// The state after one more byte.
fn hashed(state: u64, byte: u8) -> u64
    ensures { result ≡ hashed state byte }
{
    (state ^ u64::from(byte)).wrapping_mul(0x100_0000_01b3)
}

/// The state after a number as eight bytes, low byte first.
fn numbered(state: u64, number: u64) -> u64
    ensures { result ≡ numbered state number }
{
    number
        .to_le_bytes()
        .iter()
        .fold(state, |state, byte| hashed(state, *byte))
}

impl Digest {
    /// The digest of no byte.
    pub(crate) fn new() -> Digest
        ensures { result.state ≡ 14695981039346656037 }
    {
        Digest {
            state: 0xcbf2_9ce4_8422_2325,
        }
    }

    pub(crate) fn byte(&mut self, byte: u8)
        ensures { self.new.state ≡ hashed self.old.state byte }
    {
        self.state = hashed(self.state, byte);
    }

    /// One read: 0, the bytes used and the values; or the cause's code, and the layer.
    pub(crate) fn read(&mut self, answer: Result<usize, Fault>, values: &[u64])
        ensures { self.new.state ≡ with_read self.old.state answer values.now }
    {
        self.state = match answer {
            Ok(used) => {
                let used = numbered(hashed(self.state, 0), used as u64);
                values
                    .iter()
                    .fold(used, |state, value| numbered(state, *value))
            }
            Err(fault) => numbered(
                hashed(self.state, code(fault.cause)),
                u64::from(fault.layer),
            ),
        };
    }
}

/// The code of a cause in a digest.
// Stays: the digests of the data file were made with these numbers.
fn code(cause: Cause) -> u8
    ensures { result ≡ code_of cause }
{
    match cause {
        Cause::Room => 1,
        Cause::Short => 2,
        Cause::Bad => 3,
    }
}
