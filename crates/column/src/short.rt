//! The short kind: unsigned LEB128, so that small values take few bytes.

ghost use Rattle.std.specs.Prelude.{◌≡◌, ◌^◌, ◌<◌, length};
ghost use Rattle.column.specs.Parsed.{told};
ghost use Rattle.column.specs.Digits.{total};
ghost use Rattle.column.specs.Short.{Fewest, leb128, front, short_one};
ghost use Rattle.column.specs.Laws.Short.{short-coding};

use crate::coded::{Code, Taken};
use crate::fault::{Cause, Fault};
use crate::width::greatest;

/// Unsigned LEB128 (DWARF 5, 7.6) in the fewest bytes. Reading also takes padded forms of at most ten bytes.
#[derive(Clone, Copy)]
pub struct Short;

/// A form has at most this many bytes.
const LONGEST: usize = 10;

/// The tenth group of a value of 64 bits is at most this.
const TENTH: u8 = 1;

impl Short {
    /// The number of bytes of a value: none of its forms has fewer.
    // Stays: a loop over the value's groups of seven bits, as the definition has them; a formula over the leading zeros is no plainer.
    pub fn size(value: u64) -> usize
        ensures size { result ≡ length (leb128 value) }
        ensures fewest { Fewest value (leb128 value) }
    {
        let mut left = value;
        let mut size = 1;
        while left >= 128 {
            size += 1;
            left /= 128;
        }
        size
    }
}

/// The number of bytes of the form at the beginning of these bytes.
fn form_size(layer: u16, bytes: &[u8]) -> Result<usize, Fault>
    ensures { result ≡ told layer (front 10 bytes.now) }
{
    match bytes.iter().take(LONGEST).position(|byte| *byte < 128) {
        Some(last) => Ok(last + 1),
        None if bytes.len() < LONGEST => Err(Cause::Short.at(layer)),
        None => Err(Cause::Bad.at(layer)),
    }
}

/// The number that a form writes, which fits 64 bits: seven bits in each byte, the lowest first.
fn number_of(form: &[u8]) -> u64
    requires { total 128 form.now < 2 ^ 64 }
    ensures { result ≡ total 128 form.now }
{
    form.iter()
        .rev()
        .fold(0, |number, byte| (number << 7) | u64::from(*byte & 0x7f))
}

impl Code for Short {
    ghost code = { λ _ _ v. leb128 v };

    ghost one = { λ _ w bytes. short_one w bytes };

    ghost coding = { λ form. short-coding };

    fn put(&self, _width: u32, value: u64, room: &mut [u8]) -> Option<usize> {
        let mut rest = value;
        for (k, byte) in room.iter_mut().enumerate() {
            let is_last = rest < 128;
            if is_last {
                *byte = rest as u8;
                return Some(k + 1);
            }
            *byte = (rest % 128 + 128) as u8;
            rest /= 128;
        }
        None
    }

    fn take(&self, layer: u16, width: u32, bytes: &[u8]) -> Result<Taken, Fault> {
        let top = greatest(layer, width)?;
        // Stays: a form of one byte is read by itself, since most values are small, and a search and a fold would be most of the work.
        if let [first, ..] = bytes {
            if *first < 128 {
                let small = u64::from(*first);
                if small > top {
                    return Err(Cause::Bad.at(layer));
                }
                return Ok(Taken {
                    value: small,
                    size: 1,
                });
            }
        }
        let size = form_size(layer, bytes)?;
        if size == LONGEST && bytes[9] > TENTH {
            return Err(Cause::Bad.at(layer));
        }
        let value = number_of(&bytes[..size]);
        if value > top {
            return Err(Cause::Bad.at(layer));
        }
        Ok(Taken { value, size })
    }
}
