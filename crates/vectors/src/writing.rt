//! A list of calls, given to the writer.

use crate::calls::Told;
use crate::walk::{cells, lengths, letters, open_places, records_of_calls};
use anyhow::Context;
use column::flat::Flat;
use document::calls::Call;
use document::refusals::Refusal;
use ser::writer::Writer;
use ser::writer::calls::Parts;
use std::alloc::{AllocError, Global};
use std::fmt;

/// What a call that was refused as of another kind has beside it: a `unit`, or a `none`'s.
#[derive(Clone, Copy)]
pub enum Beside {
    Unit,
    None,
}

/// What the calls up to a refused one, and the writer after it, tell of the refusal.
#[derive(Clone, Copy)]
pub struct Grounds {
    /// Whether the call is an `end`.
    pub is_end: bool,
    /// Of a call that was refused as of another kind: the unit that it is, or that it meets at its node.
    pub beside: Option<Beside>,
    /// How many places were open.
    pub places: usize,
    /// All lengths up to this call, added up.
    pub lengths: u64,
    /// The most node records that the calls up to this one can take.
    pub records: u64,
    /// The cells that the calls up to this one take.
    pub cells: u64,
    /// The bytes of all texts up to this call.
    pub letters: u64,
}

/// A refused call, by its number.
#[derive(Clone, Copy)]
pub struct RefusedCall {
    pub call: usize,
    pub refusal: Refusal,
    pub grounds: Grounds,
}

/// What the writer did with a list of calls.
#[derive(Drop)]
pub enum Wrote {
    Bytes(Vec<u8>),
    Refused(RefusedCall),
    /// All calls were accepted, and write-out was refused.
    NotOut(Refusal),
}

impl fmt::Display for Wrote {
    fn fmt<W: fmt::Write>(&self, f: &mut fmt::Formatter<W>) -> fmt::Result {
        match self {
            Wrote::Bytes(bytes) => {
                write!(f, "bytes ")?;
                for byte in bytes {
                    write!(f, "{byte:02x}")?;
                }
                Ok(())
            }
            Wrote::Refused(RefusedCall { call, refusal, .. }) => {
                write!(f, "call {call}: {refusal}")
            }
            Wrote::NotOut(refusal) => write!(f, "write-out: {refusal}"),
        }
    }
}

/// Gives the calls to the writer, up to the first that is refused.
fn give(writer: &mut Writer, calls: &[Told]) -> Result<(), (usize, Refusal)> {
    for (number, told) in calls.iter().enumerate() {
        writer
            .call(told.call())
            .map_err(|refusal| (number, refusal))?;
    }
    Ok(())
}

/// The unit that a call is or meets which was refused as of another kind: it is a `unit` itself, or its node takes a `unit`;
/// or it is a `none`, and its node takes a `some`, so that the node of index 0 is at fault.
fn beside_it(writer: &mut Writer, before: &[Told], call: Call<'_>) -> Option<Beside> {
    if call == Call::Unit {
        return Some(Beside::Unit);
    }
    if writer.call(Call::Unit).is_ok() {
        return Some(if follows_none(before) {
            Beside::None
        } else {
            Beside::Unit
        });
    }
    (call == Call::None && writer.call(Call::Some).is_ok()).then_some(Beside::None)
}

/// Whether these calls end in a `variant 0`, and have a `none`.
fn follows_none(calls: &[Told]) -> bool {
    let last = calls.last().map(Told::call);
    last == Some(Call::Variant(0)) && calls.iter().any(|told| told.call() == Call::None)
}

/// What is told of the refusal of the call with this number.
fn told_of(
    alloc: Global,
    writer: &mut Writer,
    calls: &[Told],
    number: usize,
    refusal: Refusal,
) -> Result<Grounds, AllocError> {
    let (before, rest) = calls.split_at_checked(number).unwrap_or((calls, &[]));
    let call = rest.first().map_or(Call::End, Told::call);
    let so_far = calls.get(..=number).unwrap_or(calls);
    Ok(Grounds {
        is_end: call == Call::End,
        beside: if refusal == Refusal::Kind {
            beside_it(writer, before, call)
        } else {
            None
        },
        places: open_places(alloc, before)?,
        lengths: lengths(so_far),
        records: records_of_calls(so_far),
        cells: cells(so_far),
        letters: letters(so_far),
    })
}

/// Gives the calls to one new writer over these tables, and writes them out under flat. A call takes two cells at most, so as much of the scratch is lent.
pub(crate) fn write(
    alloc: Global,
    calls: &[Told],
    tables: Parts,
    scratch: &mut [u64],
    output: &mut [u8],
) -> anyhow::Result<(Wrote, Parts)> {
    let Parts { nodes, cells, text } = tables;
    let mut writer = Writer::new(nodes, cells, text);
    if let Err((call, refusal)) = give(&mut writer, calls) {
        let grounds = told_of(alloc, &mut writer, calls, call, refusal)?;
        let refused = RefusedCall {
            call,
            refusal,
            grounds,
        };
        return Ok((Wrote::Refused(refused), writer.close().into_tables()));
    }
    let closed = writer.close();
    let size = scratch.len().min(calls.len().saturating_mul(2));
    let (scratch, _) = scratch.split_at_mut(size);
    let wrote = match closed.write_out(&Flat, scratch, output) {
        Ok(size) => {
            let bytes = output
                .get(..size)
                .context("more bytes than the output has")?;
            Wrote::Bytes(bytes.to_vec(alloc)?)
        }
        Err(refusal) => Wrote::NotOut(refusal),
    };
    Ok((wrote, closed.into_tables()))
}
