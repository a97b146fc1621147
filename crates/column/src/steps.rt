//! Steps: a layer over any kind, which passes on differences.

ghost use Rattle.std.specs.Prelude.{◌≡◌, ◌-◌, ◌^◌, ◌≤◌};
ghost use Rattle.column.specs.Widths.{Below};
ghost use Rattle.column.specs.Steps.{differences, sums, steps};
ghost use Rattle.column.specs.Laws.Steps.{steps-undone};
ghost use Rattle.column.specs.Laws.Layer.{layer-lawful};

use crate::fault::Fault;
use crate::interface::Column;
use crate::width::{admitted, greatest};

/// Passes on the first value and each later one less its predecessor, modulo 2 to the width, to the kind below; reads by adding up again.
#[derive(Clone, Copy)]
pub struct Steps<C> {
    pub lower: C,
}

impl<C: Column> Column for Steps<C> {
    ghost meaning = { λ layer. steps (C.meaning layer.lower) };

    ghost lawful = { λ kind. layer-lawful (λ w. differences w 0) (λ w. sums w 0) steps-undone (C.meaning kind.lower) (C.lawful kind.lower) };

    fn write(
        &self,
        layer: u16,
        width: u32,
        values: &mut [u64],
        output: &mut [u8],
        place: usize,
    ) -> Result<usize, Fault> {
        let top = admitted(layer, width, values)?;
        subtract(width, top, values);
        self.lower
            .write(layer.saturating_add(1), width, values, output, place)
    }

    fn read(
        &self,
        layer: u16,
        width: u32,
        values: &mut [u64],
        input: &[u8],
        place: usize,
    ) -> Result<usize, Fault> {
        let top = greatest(layer, width)?;
        let used = self
            .lower
            .read(layer.saturating_add(1), width, values, input, place)?;
        add_up(width, top, values);
        Ok(used)
    }
}

/// Takes from each value its predecessor.
// Stays: two loops that keep another number from turn to turn; one loop would take a closure with that number in it, and say no more.
fn subtract(width: u32, top: u64, values: &mut [u64])
    requires width { width ≤ 64 }
    requires top { top ≡ 2 ^ width - 1 }
    requires below { Below width values.old }
    ensures { values.new ≡ differences width 0 values.old }
{
    let mut last: u64 = 0;
    for value in values.iter_mut() {
        let step = value.wrapping_sub(last) & top;
        last = *value;
        *value = step;
    }
}

/// Adds to each value those before it.
fn add_up(width: u32, top: u64, values: &mut [u64])
    requires width { width ≤ 64 }
    requires top { top ≡ 2 ^ width - 1 }
    ensures { values.new ≡ sums width 0 values.old }
{
    let mut last: u64 = 0;
    for value in values.iter_mut() {
        last = last.wrapping_add(*value) & top;
        *value = last;
    }
}
