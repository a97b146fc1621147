//! The flat kind: each value as it stands in memory, the low byte first.

ghost use Rattle.std.specs.Prelude.{◌≡◌, true, length, take, if◌then◌else◌, Some, None, nat_le};
ghost use Rattle.column.specs.Digits.{low, total};
ghost use Rattle.column.specs.Widths.{listed};
ghost use Rattle.column.specs.Flat.{size, flat_one};
ghost use Rattle.column.specs.Laws.Flat.{flat-coding};

use crate::coded::{Code, Taken};
use crate::fault::{Cause, Fault};

/// One byte, 0 or 1, for width 1; else width / 8 bytes, low byte first.
#[derive(Clone, Copy)]
pub struct Flat;

/// The number of bytes of a value.
fn size_of(width: u32) -> usize
    ensures { result ≡ size width }
{
    if width == 1 { 1 } else { (width / 8) as usize }
}

/// The number that the first bytes write, as many as a value has; `None` where there are fewer.
fn first_number(width: u32, bytes: &[u8]) -> Option<u64>
    requires { listed width ≡ true }
    ensures { result ≡ (if nat_le (size width) (length bytes.now) then Some (total 256 (take (size width) bytes.now)) else None) }
{
    match (width, bytes) {
        (1 | 8, [a, ..]) => Some(u64::from(*a)),
        (16, [a, b, ..]) => Some(u64::from(u16::from_le_bytes([*a, *b]))),
        (32, [a, b, c, d, ..]) => Some(u64::from(u32::from_le_bytes([*a, *b, *c, *d]))),
        (64, [a, b, c, d, e, f, g, h, ..]) => {
            Some(u64::from_le_bytes([*a, *b, *c, *d, *e, *f, *g, *h]))
        }
        _ => None,
    }
}

impl Code for Flat {
    ghost code = { λ _ w v. low 256 (size w) v };

    ghost one = { λ _ w bytes. flat_one w bytes };

    ghost coding = { λ form. flat-coding };

    fn put(&self, width: u32, value: u64, room: &mut [u8]) -> Option<usize> {
        let size = size_of(width);
        if size > room.len() {
            return None;
        }
        let code = value.to_le_bytes();
        // Stays: each size has a copy of its own, which is a store; a copy of `size` bytes is a call of the library for each value.
        match size {
            1 => room[..1].copy_from_slice(&code[..1]),
            2 => room[..2].copy_from_slice(&code[..2]),
            4 => room[..4].copy_from_slice(&code[..4]),
            _ => room[..8].copy_from_slice(&code),
        }
        Some(size)
    }

    fn take(&self, layer: u16, width: u32, bytes: &[u8]) -> Result<Taken, Fault> {
        let Some(value) = first_number(width, bytes) else {
            return Err(Cause::Short.at(layer));
        };
        if width == 1 && value > 1 {
            return Err(Cause::Bad.at(layer));
        }
        let size = size_of(width);
        Ok(Taken { value, size })
    }
}
