//! There and back: a list of values through any kind.

ghost use Rattle.std.specs.Prelude.{◌≡◌, length, OnOk};
ghost use Rattle.column.specs.Interface.{writing, Written};

use crate::fault::Fault;
use crate::interface::Column;

/// Puts the values' image at a place of the output as a write does, and reads it back, so that the list is as it was.
///
/// Free are what `values` holds, and the output from the place on, after a refusal.
pub fn round_trip<C: Column>(
    kind: &C,
    width: u32,
    values: &mut [u64],
    output: &mut [u8],
    place: usize,
) -> Result<usize, Fault>
    ensures answer { result ≡ writing (C.meaning kind.now) 0 width values.old (length output.old) place }
    ensures bytes { Written result place ((C.meaning kind.now).image width values.old) output.old output.new }
    ensures values { OnOk result (values.new ≡ values.old) }
{
    kind.write(0, width, values, output, place)?;
    kind.read(0, width, values, output, place)
}
