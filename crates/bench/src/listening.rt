//! A document is read, as often as wanted: each question is asked in turn.

ghost use Rattle.std.specs.Prelude.{◌≡◌, vec_len};
ghost use Rattle.document.specs.Reader.{Reading, begin, answer};
ghost use Rattle.document.specs.Replay.{replay, finish};
ghost use Rattle.de.specs.Readers.{StandsFor, KeepsLengths};
ghost use Rattle.bench.specs.Hearing.{Counts, AskedOnce};

use crate::tally::Tally;
use column::interface::Column;
use de::reader::Reader;
use de::reader::questions::Parts;
use de::texts::text_at;
use document::questions::{Answer, Question};
use document::refusals::Refusal;

/// Asks one question, adds the answer up, and hands a text out.
fn ask<C: Column>(
    reader: &mut Reader<'_, C>,
    question: Question,
    input: &[u8],
    tally: Tally,
) -> Result<Tally, Refusal>
    requires { reader.old.input.now ≡ input.now }
    ensures kind { reader.new.kind ≡ reader.old.kind }
    ensures input { reader.new.input ≡ reader.old.input }
    ensures lengths { KeepsLengths reader.old reader.new }
    ensures asked { (R : Reading) → StandsFor reader.old R → AskedOnce input.now tally reader.new result (answer (C.meaning reader.old.kind.now) R.store R.places question) }
{
    let answer = reader.ask(question)?;
    let next = tally.with(answer);
    match answer {
        Answer::Text { place, length } => Ok(next.with_text(text_at(input, place, length)?)),
        _ => Ok(next),
    }
}

/// Asks each question in turn, and finishes.
fn ask_all<C: Column>(
    reader: &mut Reader<'_, C>,
    questions: &[Question],
    input: &[u8],
) -> Result<Tally, Refusal>
    requires { reader.old.input.now ≡ input.now }
    ensures lengths { KeepsLengths reader.old reader.new }
    ensures counts { (R : Reading) → StandsFor reader.old R → Counts 0 (finish (replay (C.meaning reader.old.kind.now) input.now R questions.now)) result }
{
    let mut tally = Tally::default();
    for question in questions {
        tally = ask(reader, *question, input, tally)?;
    }
    reader.finish()?;
    Ok(tally)
}

/// What was heard of a document, and the tables, for the next reader.
#[derive(Drop)]
pub(crate) struct Listened {
    pub(crate) heard: Result<Tally, Refusal>,
    pub(crate) tables: Parts,
}

/// Reads a document once.
fn listen<C: Column>(kind: &C, input: &[u8], questions: &[Question], tables: Parts) -> Listened
    ensures counts { Counts 0 (finish (replay (C.meaning kind.now) input.now (begin (vec_len tables.nodes) (vec_len tables.slots) input.now) questions.now)) result.heard }
    ensures nodes { vec_len result.tables.nodes ≡ vec_len tables.nodes }
    ensures slots { vec_len result.tables.slots ≡ vec_len tables.slots }
{
    let Parts { nodes, slots } = tables;
    let mut reader = Reader::new(kind, input, nodes, slots);
    let heard = ask_all(&mut reader, questions, input);
    Listened {
        heard,
        tables: reader.into_tables(),
    }
}

/// Reads a document so often, at least once, each time with a new reader over the same tables.
pub(crate) fn listen_often<C: Column>(
    kind: &C,
    input: &[u8],
    questions: &[Question],
    tables: Parts,
    times: u32,
) -> Listened
    ensures counts { Counts 0 (finish (replay (C.meaning kind.now) input.now (begin (vec_len tables.nodes) (vec_len tables.slots) input.now) questions.now)) result.heard }
    ensures nodes { vec_len result.tables.nodes ≡ vec_len tables.nodes }
    ensures slots { vec_len result.tables.slots ≡ vec_len tables.slots }
{
    let mut listened = listen(kind, input, questions, tables);
    for _ in 1..times {
        listened = listen(kind, input, questions, listened.tables);
    }
    listened
}
