//! The reader.

ghost use Rattle.std.specs.Prelude.{ℕ, ◌<◌, slice_index};
ghost use Rattle.document.specs.Reader.{Reading};
ghost use Rattle.de.specs.Standing.{Stands};

use crate::desk::Desk;

/// Answers questions about a document, and stands for a reading of it.
#[derive(Drop)]
pub struct Reader<'a, C> {
    kind: &'a C,
    input: &'a [u8],
    desk: Desk,
    ghost bytes: { (i : ℕ) → slice_index input.now i < 256 },
    ghost stands: { ∥ ((R : Reading) × Stands desk input.now R) ∥₁ },
}

pub mod questions;
