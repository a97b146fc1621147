//! The listed widths, and the values that fit them.

ghost use Rattle.std.specs.Prelude.{◌≡◌, ◌-◌, ◌^◌, ◌&&◌, if◌then◌else◌, Ok, Err};
ghost use Rattle.column.specs.declared.fault.Cause.TheVariants.{Bad};
ghost use Rattle.column.specs.Widths.{listed, below};
ghost use Rattle.column.specs.Parsed.{fault};

use crate::fault::{Cause, Fault};

/// The greatest value of a listed width; `Bad` at this layer for any other.
pub fn greatest(layer: u16, width: u32) -> Result<u64, Fault>
    ensures { result ≡ (if listed width then Ok (2 ^ width - 1) else Err (fault Bad layer)) }
{
    match width {
        1 => Ok(1),
        8 => Ok(0xff),
        16 => Ok(0xffff),
        32 => Ok(0xffff_ffff),
        64 => Ok(0xffff_ffff_ffff_ffff),
        _ => Err(Cause::Bad.at(layer)),
    }
}

/// The greatest value of a listed width that each of these values fits; `Bad` at this layer where one does not, or the width is not listed.
pub fn admitted(layer: u16, width: u32, values: &[u64]) -> Result<u64, Fault>
    ensures { result ≡ (if listed width && below width values.now then Ok (2 ^ width - 1) else Err (fault Bad layer)) }
{
    let top = greatest(layer, width)?;
    if values.iter().all(|value| *value <= top) {
        Ok(top)
    } else {
        Err(Cause::Bad.at(layer))
    }
}
