//! The round trip: what was written is read back, and each answer compared with its call.

ghost use Rattle.std.specs.Prelude.{◌≡◌, List, [], take, vec_len};
ghost use Rattle.document.specs.Said.{said, asked};
ghost use Rattle.document.specs.Reader.{Reading, begin, answer};
ghost use Rattle.de.specs.Readers.{StandsFor, KeepsLengths};
ghost use Rattle.ser.specs.Standing.{WrittenOut};
ghost use Rattle.replay.specs.Given.{accepted_calls, marked_for, sizes_for};
ghost use Rattle.replay.specs.Listening.{askings, Listens, Matched};
ghost use Rattle.replay.specs.declared.trip.Mismatch.TheVariants.{Refused};
ghost use Rattle.replay.specs.Trips.{ReadBack, ComesBack};

use crate::says::says;
use crate::steps::Step;
use crate::write::{Written, write_steps};
use column::interface::Column;
use de::reader::Reader;
use de::reader::questions::Parts as ReaderParts;
use document::refusals::Refusal;
use ser::writer::calls::Parts as WriterParts;

/// Why a document that is read back is not what was written.
#[derive(Clone, Copy, PartialEq, Eq, Debug)]
pub enum Mismatch {
    /// An answer was another value than the call's.
    Other,
    /// A question, or finish, was refused.
    Refused(Refusal),
}

impl From<Refusal> for Mismatch {
    ghost from_gives = { λ refusal mismatch. mismatch ≡ Refused refusal };

    fn from(refusal: Refusal) -> Mismatch {
        Mismatch::Refused(refusal)
    }
}

/// What was heard: how many questions one after another were answered with their call's value, and whether each was and finish was accepted.
#[derive(Clone, Copy, PartialEq, Eq, Debug)]
pub struct Heard {
    pub count: usize,
    pub ending: Result<(), Mismatch>,
}

/// A round trip: what write-out answered, what was heard of the document if it was written out, and the tables of both ends, for the next one.
// Stays: what was written and what was heard are two fields, here and in `Compared`, since the clauses of callers name each.
#[derive(Drop)]
pub struct Trip {
    pub written: Result<usize, Refusal>,
    pub heard: Option<Heard>,
    pub writer: WriterParts,
    pub reader: ReaderParts,
}

/// Asks a reader a call's question, and compares the answer with the call.
fn ask<C: Column>(reader: &mut Reader<'_, C>, step: &Step<'_>, input: &[u8]) -> Result<(), Mismatch>
    requires { reader.old.input.now ≡ input.now }
    ensures kind { reader.new.kind ≡ reader.old.kind }
    ensures input { reader.new.input ≡ reader.old.input }
    ensures lengths { KeepsLengths reader.old reader.new }
    ensures matched { (R : Reading) → StandsFor reader.old R → Matched input.now (said step.now.call) reader.new result (answer (C.meaning reader.old.kind.now) R.store R.places (asked step.now.no_size (said step.now.call))) }
{
    let answer = reader.ask(step.call.question(step.no_size))?;
    if says(answer, step.call, input) {
        Ok(())
    } else {
        Err(Mismatch::Other)
    }
}

/// Asks a reader each accepted call's question in turn, and then finishes.
fn listen<C: Column>(reader: &mut Reader<'_, C>, steps: &[Step<'_>], input: &[u8]) -> Heard
    requires { reader.old.input.now ≡ input.now }
    ensures lengths { KeepsLengths reader.old reader.new }
    ensures heard { (R : Reading) → StandsFor reader.old R → Listens (C.meaning reader.old.kind.now) input.now R (askings steps.now) result.count result.ending }
{
    let mut count = 0;
    for step in steps {
        // Stays: a test and a count within the loop; `filter` was tried, and the kit made no proof of the loop, whose reader is borrowed in a generic function.
        if step.accepted {
            if let Err(mismatch) = ask(reader, step, input) {
                return Heard {
                    count,
                    ending: Err(mismatch),
                };
            }
            count += 1;
        }
    }
    let ending = reader.finish().map_err(Mismatch::from);
    Heard { count, ending }
}

/// Gives each call to one new writer, marks those that it accepts, closes it and writes it out;
/// then one new reader of those bytes is asked each accepted call's question, each answer is compared with its call, and the reader finishes.
///
/// The clause `comes_back` is the round trip: of what was written out, each accepted call comes back, none of its questions is refused, and finish is accepted,
/// if the reader's tables are no smaller than the writer's, and only questions for lengths of up to 65,536 carry the flag.
pub fn round_trip<C: Column>(
    kind: &C,
    steps: &mut [Step<'_>],
    writer: WriterParts,
    reader: ReaderParts,
    scratch: &mut [u64],
    output: &mut [u8],
) -> Trip
    ensures steps { steps.new ≡ marked_for writer steps.old }
    ensures written { WrittenOut (C.meaning kind.now) (accepted_calls writer steps.old) scratch.old scratch.new output.old output.new result.written }
    ensures heard { ReadBack (C.meaning kind.now) output.new (vec_len reader.nodes) (vec_len reader.slots) (askings steps.new) result.written result.heard }
    ensures comes_back { ComesBack (sizes_for writer) (vec_len reader.nodes) (vec_len reader.slots) (askings steps.new) result.written result.heard }
    ensures writer { sizes_for result.writer ≡ sizes_for writer }
    ensures reader_nodes { vec_len result.reader.nodes ≡ vec_len reader.nodes }
    ensures reader_slots { vec_len result.reader.slots ≡ vec_len reader.slots }
{
    let Written { answer, tables } = write_steps(kind, steps, writer, scratch, output);
    match answer {
        Ok(length) => {
            let input = &output[..length];
            let ReaderParts { nodes, slots } = reader;
            let mut reader = Reader::new(kind, input, nodes, slots);
            let heard = listen(&mut reader, steps, input);
            Trip {
                written: Ok(length),
                heard: Some(heard),
                writer: tables,
                reader: reader.into_tables(),
            }
        }
        Err(refusal) => Trip {
            written: Err(refusal),
            heard: None,
            writer: tables,
            reader,
        },
    }
}
