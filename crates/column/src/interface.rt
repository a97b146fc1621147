//! The interface of column kinds, and its laws.

ghost use Rattle.std.specs.Prelude.{◌≡◌, length, OnOk};
ghost use Rattle.column.specs.Parsed.{told, values_of};
ghost use Rattle.column.specs.Meaning.{Meaning, Lawful};
ghost use Rattle.column.specs.Interface.{writing, Written, reading};

use crate::fault::Fault;

/// A column kind: it gives each list of values of a width its bytes, and reads them back.
///
/// A width is a number of bits: 1, 8, 16, 32 or 64. No call changes what a kind means.
// Stays: a place past the end has an answer of its own, which a slice from the place on could not give.
// Stays: a width is a number, since any that is not listed is answered `Bad`; a type of the listed ones would ask more of callers.
pub trait Column {
    ghost meaning: { Self → Meaning };

    /// Puts the values' image at a place of the output, and answers the image's length.
    ///
    /// `Bad` where the width is not listed or a value does not fit it, then `Room` where the image passes the output's end.
    /// Accepted, no other byte of the output is touched; refused, none before the place is.
    /// Free are what `values` holds afterwards, and the output from the place on after a refusal.
    fn write(
        &self,
        layer: u16,
        width: u32,
        values: &mut [u64],
        output: &mut [u8],
        place: usize,
    ) -> Result<usize, Fault>
        ensures answer { result ≡ writing (meaning self.now) layer width values.old (length output.old) place }
        ensures bytes { Written result place ((meaning self.now).image width values.old) output.old output.new };

    /// Reads as many values as the list has from a place of the input on, and answers the number of bytes that they took.
    ///
    /// The bytes from the place on decide alone; a place past the end is `Short`, and an unlisted width `Bad` before that.
    /// Free is what `values` holds after a refusal.
    fn read(
        &self,
        layer: u16,
        width: u32,
        values: &mut [u64],
        input: &[u8],
        place: usize,
    ) -> Result<usize, Fault>
        ensures answer { result ≡ told layer (reading (meaning self.now) width (length values.old) input.now place) }
        ensures values { OnOk result (values.new ≡ values_of (reading (meaning self.now) width (length values.old) input.now place)) };

    ghost lawful: { (kind : Self) → Lawful (meaning kind) };
}
