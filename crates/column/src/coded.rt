//! Kinds that put one value after another, each as a code of its own: both loops, for every such code.

ghost use Rattle.std.specs.Prelude.{◌≡◌, ℕ, ◌+◌, ◌^◌, ◌<◌, ◌≤◌, true, List, ◌++◌, length, drop, if◌then◌else◌, Some, None, IfSome, nat_le};
ghost use Rattle.column.specs.Widths.{listed};
ghost use Rattle.column.specs.Parsed.{Parsed};
ghost use Rattle.column.specs.Coded.{coded, taken, Coding};
ghost use Rattle.column.specs.Laws.Coded.{coded-lawful};

use crate::fault::{Cause, Fault};
use crate::interface::Column;
use crate::width::{admitted, greatest};

/// A value that was read, and the number of bytes that it took.
#[derive(Clone, Copy)]
pub(crate) struct Taken {
    pub(crate) value: u64,
    pub(crate) size: usize,
}

/// How one value is put into bytes and read back.
pub(crate) trait Code {
    ghost code: { Self → ℕ → ℕ → List ℕ };

    ghost one: { Self → ℕ → List ℕ → Parsed ℕ };

    /// Puts a value's code at the beginning of the room, and answers its length; `None` where the room is too small.
    fn put(&self, width: u32, value: u64, room: &mut [u8]) -> Option<usize>
        requires { (listed width ≡ true) × (value < 2 ^ width) }
        ensures answer { result ≡ (if nat_le (length (code self.now width value)) (length room.old) then Some (length (code self.now width value)) else None) }
        ensures bytes { IfSome result (λ size. room.new ≡ code self.now width value ++ drop size room.old) };

    /// Reads the value at the beginning of these bytes.
    fn take(&self, layer: u16, width: u32, bytes: &[u8]) -> Result<Taken, Fault>
        requires { listed width ≡ true }
        ensures { result ≡ taken layer (one self.now width bytes.now) };

    ghost coding: { (form : Self) → Coding (code form) (one form) };
}

/// A code makes a column kind: the codes of the values one after another.
impl<F: Code> Column for F {
    ghost meaning = { λ form. coded (F.code form) (F.one form) };

    ghost lawful = { λ form. coded-lawful (F.coding form) };

    fn write(
        &self,
        layer: u16,
        width: u32,
        values: &mut [u64],
        output: &mut [u8],
        place: usize,
    ) -> Result<usize, Fault> {
        admitted(layer, width, values)?;
        if place > output.len() {
            return Err(Cause::Room.at(layer));
        }
        // Stays: the place moves on by what each code took, here and in `read`; a fold over it would say the same in a closure.
        let mut at = place;
        for value in values.iter() {
            let size = self.put(width, *value, &mut output[at..]);
            at += size.ok_or(Cause::Room.at(layer))?;
        }
        Ok(at - place)
    }

    fn read(
        &self,
        layer: u16,
        width: u32,
        values: &mut [u64],
        input: &[u8],
        place: usize,
    ) -> Result<usize, Fault> {
        greatest(layer, width)?;
        if place > input.len() {
            return Err(Cause::Short.at(layer));
        }
        let mut at = place;
        for value in values.iter_mut() {
            let next = self.take(layer, width, &input[at..])?;
            *value = next.value;
            at += next.size;
        }
        Ok(at - place)
    }
}
