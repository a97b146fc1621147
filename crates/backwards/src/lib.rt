//! A kind of one's own: a layer that passes the values on in reverse order.
//!
//! It is what a user of the column interface writes: the meaning, the two calls, and the proof of the laws.
#![tactic(auto)]

ghost use Rattle.backwards.specs.Backwards.{backwards};
ghost use Rattle.std.specs.Prelude.{reverse};
ghost use Rattle.column.specs.Laws.Layer.{layer-lawful};
ghost use Rattle.backwards.specs.Laws.{reverse-undone};

use column::fault::Fault;
use column::interface::Column;
use column::width::{admitted, greatest};

/// The last value first, through the kind below.
#[derive(Clone, Copy)]
pub struct Backwards<C> {
    pub lower: C,
}

// Stays: written out beside `Steps` of crate `column`, as a user's own kind is, which this crate shows.
impl<C: Column> Column for Backwards<C> {
    ghost meaning = { λ layer. backwards (C.meaning layer.lower) };

    ghost lawful = { λ kind. layer-lawful (λ _. reverse) (λ _. reverse) reverse-undone (C.meaning kind.lower) (C.lawful kind.lower) };

    fn write(
        &self,
        layer: u16,
        width: u32,
        values: &mut [u64],
        output: &mut [u8],
        place: usize,
    ) -> Result<usize, Fault> {
        admitted(layer, width, values)?;
        values.reverse();
        self.lower
            .write(layer.saturating_add(1), width, values, output, place)
    }

    fn read(
        &self,
        layer: u16,
        width: u32,
        values: &mut [u64],
        input: &[u8],
        place: usize,
    ) -> Result<usize, Fault> {
        greatest(layer, width)?;
        let used = self
            .lower
            .read(layer.saturating_add(1), width, values, input, place)?;
        values.reverse();
        Ok(used)
    }
}
