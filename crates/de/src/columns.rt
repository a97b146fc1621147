//! The columns of a node, read into the table of slots.

ghost use Rattle.std.specs.Prelude.{◌≡◌, ℕ, ◌+◌, ◌-◌, ◌^◌, ◌<◌, ◌≤◌, min, length, take, drop, slice_index};
ghost use Rattle.document.specs.Calls.{Kind};
ghost use Rattle.document.specs.Columns.{sum};
ghost use Rattle.document.specs.Fetch.{numbers, beyond, merged, lengths, cut, all_pass, texts, fetch};
ghost use Rattle.nodes.specs.Marks.{mark_of};
ghost use Rattle.de.specs.Columns.{usable, Within, ReadSafe, ReadAs, KeepsBefore, NumbersStored, LengthsStored, TextsStored, CellsStored};

use column::interface::Column;
use document::limits::{LIMIT, LONG, MOST_CELLS};
use document::refusals::Refusal;
use nodes::marks::Mark;
use utf8::well_formed;

/// How far reading came: the first slot that is not taken, and the place in the input.
#[derive(Clone, Copy)]
pub(crate) struct Spot {
    pub(crate) taken: usize,
    pub(crate) place: usize,
}

/// What reading a node's columns came to: how far, the place behind its numbers, where its texts begin, and the sum of its lengths (0 where it has none).
#[derive(Clone, Copy)]
pub(crate) struct Gain {
    pub(crate) spot: Spot,
    pub(crate) text: usize,
    pub(crate) sum: u64,
}

/// Where columns are read from: their kind, and the input that they stand in.
// Stays: the reader has a kind and an input as fields of its own too, which its public contracts name.
#[derive(Drop)]
pub(crate) struct Source<'a, C> {
    pub(crate) kind: &'a C,
    pub(crate) input: &'a [u8],
    ghost bytes: { (i : ℕ) → slice_index input.now i < 256 },
}

/// How many lengths stand in the second column.
fn count_long(shorts: &[u64]) -> u64
    ensures { result ≡ beyond shorts.now }
{
    shorts.iter().filter(|short| **short >= LONG).count() as u64
}

/// Puts the lengths of the second column in the places that wait for them.
fn merge(lengths: &mut [u64], longs: &[u64])
    requires { beyond lengths.old ≤ length longs.now }
    ensures { lengths.new ≡ merged lengths.old longs.now }
{
    let mut left = longs;
    for length in lengths.iter_mut() {
        if *length >= LONG {
            let (next, rest) = left.split_at(1);
            *length = next[0];
            left = rest;
        }
    }
}

/// The sum of lengths, or the greatest number where it is greater.
fn sum_of(lengths: &[u64]) -> u64
    ensures { result ≡ min (sum lengths.now) (2 ^ 64 - 1) }
{
    lengths
        .iter()
        .fold(0u64, |sum, length| sum.saturating_add(*length))
}

/// Merges the columns of lengths that stand one after the other, the first of this many, in its place, and answers the sum.
fn join(slots: &mut [u64], count: usize) -> u64
    requires { count + beyond (take count slots.old) ≤ length slots.old }
    ensures merged { take count slots.new ≡ merged (take count slots.old) (drop count slots.old) }
    ensures sum { result ≡ min (sum (take count slots.new)) (2 ^ 64 - 1) }
{
    let (lengths, longs) = slots.split_at_mut(count);
    merge(lengths, longs);
    sum_of(lengths)
}

/// Whether all texts of these lengths, one after another, are well-formed.
fn all_well_formed(lengths: &[u64], texts: &[u8]) -> bool
    requires { sum lengths.now ≤ length texts.now }
    ensures { result ≡ all_pass (cut lengths.now texts.now) }
{
    let mut left = texts;
    for length in lengths {
        let (text, rest) = left.split_at(*length as usize);
        if well_formed(text).is_err() {
            return false;
        }
        left = rest;
    }
    true
}

// Stays: slots, column, count and spot are handed on one by one; reading lengths goes on in the next column, with another count, from another spot.
impl<C: Column> Source<'_, C> {
    /// The numbers of one column.
    pub(crate) fn read_numbers(
        &self,
        slots: &mut [u64],
        column: u32,
        width: u32,
        count: u64,
        spot: Spot,
    ) -> Result<Gain, Refusal>
        requires { Within (usable (length slots.old)) self.now.input.now spot }
        ensures answer { ReadAs (numbers (C.Column.meaning self.now.kind.now) column width count) (NumbersStored count slots.new spot) (length slots.old) self.now.input.now spot result }
        ensures before { KeepsBefore spot slots.old slots.new }
    {
        let free = slots.len().min(MOST_CELLS) - spot.taken;
        if count > free as u64 {
            return Err(Refusal::Cells);
        }
        let end = spot.taken + count as usize;
        let part = &mut slots[spot.taken..end];
        let size = self
            .kind
            .read(0, width, part, self.input, spot.place)
            .map_err(|fault| Refusal::of_fault(fault, column))?;
        let place = spot.place + size;
        Ok(Gain {
            spot: Spot { taken: end, place },
            text: place,
            sum: 0,
        })
    }

    /// The lengths of a node, of two columns.
    fn read_lengths(
        &self,
        slots: &mut [u64],
        column: u32,
        count: u64,
        spot: Spot,
    ) -> Result<Gain, Refusal>
        requires { ReadSafe (length slots.old) self.now.input.now column spot }
        ensures answer { ReadAs (lengths (C.Column.meaning self.now.kind.now) column count) (LengthsStored count slots.new spot) (length slots.old) self.now.input.now spot result }
        ensures before { KeepsBefore spot slots.old slots.new }
    {
        let first = self.read_numbers(slots, column, 8, count, spot)?;
        let long = count_long(&slots[spot.taken..first.spot.taken]);
        let second = self.read_numbers(slots, column + 1, 64, long, first.spot)?;
        let both = &mut slots[spot.taken..second.spot.taken];
        let sum = join(both, first.spot.taken - spot.taken);
        if sum >= LIMIT {
            return Err(Refusal::Sum);
        }
        Ok(Gain { sum, ..second })
    }

    /// The lengths of a node, and after its columns all its texts.
    fn read_texts(
        &self,
        slots: &mut [u64],
        column: u32,
        count: u64,
        spot: Spot,
    ) -> Result<Gain, Refusal>
        requires { ReadSafe (length slots.old) self.now.input.now column spot }
        ensures answer { ReadAs (texts (C.Column.meaning self.now.kind.now) column count) (TextsStored count slots.new spot) (length slots.old) self.now.input.now spot result }
        ensures before { KeepsBefore spot slots.old slots.new }
    {
        let lengths = self.read_lengths(slots, column, count, spot)?;
        let place = lengths.spot.place;
        if lengths.sum > (self.input.len() - place) as u64 {
            return Err(Refusal::Short {
                layer: 0,
                column: column + 2,
            });
        }
        let end = spot.taken + count as usize;
        if !all_well_formed(&slots[spot.taken..end], &self.input[place..]) {
            return Err(Refusal::Text);
        }
        Ok(Gain {
            spot: Spot {
                place: place + lengths.sum as usize,
                ..lengths.spot
            },
            ..lengths
        })
    }

    /// The cells of a node that is marked so, of all its columns.
    pub(crate) fn fetch(
        &self,
        slots: &mut [u64],
        column: u32,
        mark: Mark,
        count: u64,
        spot: Spot,
    ) -> Result<Gain, Refusal>
        requires { ReadSafe (length slots.old) self.now.input.now column spot }
        ensures answer { (K : Kind) → mark ≡ mark_of K → ReadAs (fetch (C.Column.meaning self.now.kind.now) column K count) (CellsStored K count slots.new spot) (length slots.old) self.now.input.now spot result }
        ensures before { KeepsBefore spot slots.old slots.new }
    {
        match mark {
            Mark::Scalar(k) => self.read_numbers(slots, column, k.width(), count, spot),
            Mark::Enum => self.read_numbers(slots, column, 8, count, spot),
            Mark::Seq | Mark::Map => self.read_lengths(slots, column, count, spot),
            Mark::Text => self.read_texts(slots, column, count, spot),
            Mark::Unmarked | Mark::Unit | Mark::Tuple(_) => Ok(Gain {
                spot,
                text: spot.place,
                sum: 0,
            }),
        }
    }
}
