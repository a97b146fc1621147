//! Columns into vectors of bytes, and back, under any kind.

ghost use Rattle.std.specs.Prelude.{◌≡◌, length, true, ◌&&◌, Ok, IsOk, IfOk, OnOk, MatchResult};
ghost use Rattle.column.specs.Interface.{writing, reading};
ghost use Rattle.column.specs.Parsed.{told, values_of};
ghost use Rattle.column.specs.Widths.{listed, below};
ghost use Rattle.columns.specs.declared.packing.PackError.TheVariants.{Memory, Refused};
ghost use Rattle.columns.specs.Packing.{Fails};

use column::fault::Fault;
use column::interface::Column;
use column::trip::round_trip;
use document::refusals::Refusal;
use std::alloc::{AllocError, AllocFailed, Global};
use thiserror::Error;

/// Why a list of values, or bytes, could not be packed or unpacked.
#[derive(Debug, Drop, Error)]
pub enum PackError {
    #[error("no memory")]
    Memory,
    #[error("{0}; refusal {number}", number = Refusal::of_fault(*.0, 0).number())]
    Refused(#[source] Fault),
}

// Stays: `from_gives` says which error `?` makes, and clauses rest on it; a derived `From` has none.
impl From<AllocError> for PackError {
    ghost from_gives = { λ _ e. e ≡ Memory };

    fn from(_e: AllocError) -> PackError {
        PackError::Memory
    }
}

impl<T: Drop> From<AllocFailed<T>> for PackError {
    ghost from_gives = { λ _ e. e ≡ Memory };

    fn from(_e: AllocFailed<T>) -> PackError {
        PackError::Memory
    }
}

impl From<Fault> for PackError {
    ghost from_gives = { λ fault e. e ≡ Refused fault };

    fn from(fault: Fault) -> PackError {
        PackError::Refused(fault)
    }
}

/// The values' bytes under a kind, in a buffer of this room; or why there are none: no memory, or the fault that a write answers at layer 0.
pub(crate) fn pack<C: Column>(
    alloc: Global,
    kind: &C,
    width: u32,
    values: &[u64],
    room: usize,
) -> Result<Vec<u8>, PackError>
    ensures answer { MatchResult result (λ bytes. writing (C.meaning kind.now) 0 width values.now room 0 ≡ Ok (length bytes.items)) (Fails (writing (C.meaning kind.now) 0 width values.now room 0)) }
    ensures fits { OnOk result ((listed width && below width values.now) ≡ true) }
    ensures bytes { IfOk result (λ bytes. bytes.items ≡ (C.meaning kind.now).image width values.now) }
{
    let mut list = Vec::from_slice(alloc, values)?;
    let mut output = vec![in alloc; 0u8; room]?;
    let used = kind.write(0, width, &mut list, &mut output, 0)?;
    output.truncate(used);
    Ok(output)
}

/// The first values of the bytes under a kind; or why there are none: no memory, or the fault that a read answers at layer 0.
pub(crate) fn unpack<C: Column>(
    alloc: Global,
    kind: &C,
    width: u32,
    count: usize,
    bytes: &[u8],
) -> Result<Vec<u64>, PackError>
    ensures answer { MatchResult result (λ values. IsOk (told 0 (reading (C.meaning kind.now) width count bytes.now 0))) (Fails (told 0 (reading (C.meaning kind.now) width count bytes.now 0))) }
    ensures values { IfOk result (λ values. values.items ≡ values_of (reading (C.meaning kind.now) width count bytes.now 0)) }
{
    let mut values = vec![in alloc; 0u64; count]?;
    kind.read(0, width, &mut values, bytes, 0)?;
    Ok(values)
}

/// Packs the values and reads them back in place, and answers the number of their bytes.
pub(crate) fn there_and_back<C: Column>(
    alloc: Global,
    kind: &C,
    width: u32,
    values: &mut [u64],
    room: usize,
) -> Result<usize, PackError>
    ensures answer { MatchResult result (λ used. writing (C.meaning kind.now) 0 width values.old room 0 ≡ Ok used) (Fails (writing (C.meaning kind.now) 0 width values.old room 0)) }
    ensures values { OnOk result (values.new ≡ values.old) }
{
    let mut output = vec![in alloc; 0u8; room]?;
    Ok(round_trip(kind, width, values, &mut output, 0)?)
}
