//! A column there and back, under any kind.

ghost use Rattle.std.specs.Prelude.{◌≡◌, ◌*◌, length, Ok, IfOk, MatchResult};
ghost use Rattle.column.specs.Interface.{writing};
ghost use Rattle.columns.specs.Packing.{Fails};

use crate::packing::{PackError, pack, unpack};
use crate::table::TableColumn;
use column::interface::Column;
use std::alloc::Global;

/// A column's bytes under a kind, and the values that were read from them.
#[derive(Drop)]
pub struct Trial {
    pub bytes: Vec<u8>,
    pub values: Vec<u64>,
}

impl Trial {
    /// What is read is what was packed, whatever the kind. Only the packing is refused.
    pub(crate) fn run<C: Column>(
        alloc: Global,
        kind: &C,
        column: &TableColumn,
    ) -> Result<Trial, PackError>
        ensures answer { MatchResult result (λ trial. writing (C.meaning kind.now) 0 column.now.width column.now.values.items (10 * length column.now.values.items) 0 ≡ Ok (length trial.bytes.items)) (Fails (writing (C.meaning kind.now) 0 column.now.width column.now.values.items (10 * length column.now.values.items) 0)) }
        ensures bytes { IfOk result (λ trial. trial.bytes.items ≡ (C.meaning kind.now).image column.now.width column.now.values.items) }
        ensures values { IfOk result (λ trial. trial.values.items ≡ column.now.values.items) }
    {
        let bytes = pack(alloc, kind, column.width, &column.values, column.room())?;
        let values = unpack(alloc, kind, column.width, column.values.len(), &bytes)?;
        Ok(Trial { bytes, values })
    }
}
