//! Single documents with tables of their own, and every answer.

use crate::bench::{reader_tables, writer_tables};
use crate::calls::{bytes, calls, questions};
use crate::replies::{
    call_reply, finish_reply, out_reply, question_reply, same_answer, same_output, says_reply,
};
use crate::words::Words;
use anyhow::{Context, anyhow, ensure};
use column::flat::Flat;
use column::interface::Column;
use column::short::Short;
use column::steps::Steps;
use de::reader::Reader;
use de::reader::questions::Parts as ReaderParts;
use document::refusals::Refusal;
use ser::writer::Writer;
use ser::writer::calls::Parts;
use std::alloc::Global;
use std::fmt;

const STEPS_FLAT: Steps<Flat> = Steps { lower: Flat };

const STEPS_SHORT: Steps<Short> = Steps { lower: Short };

/// The first answer that is another than the stored one.
#[derive(Clone, Copy)]
pub enum Came {
    Call(usize, Result<(), Refusal>),
    Out(Result<usize, Refusal>),
    Question(usize, Result<(), Refusal>),
    Finish(Result<(), Refusal>),
}

/// Prints an answer: that there was one, or the refusal.
fn show<W: fmt::Write>(f: &mut fmt::Formatter<W>, answer: Result<(), Refusal>) -> fmt::Result {
    match answer {
        Ok(()) => write!(f, "accepted"),
        Err(refusal) => write!(f, "{refusal}"),
    }
}

impl fmt::Display for Came {
    fn fmt<W: fmt::Write>(&self, f: &mut fmt::Formatter<W>) -> fmt::Result {
        match self {
            Came::Call(number, answer) => {
                write!(f, "call {number}: ")?;
                show(f, *answer)
            }
            Came::Question(number, answer) => {
                write!(f, "question {number}: ")?;
                show(f, *answer)
            }
            Came::Out(Ok(size)) => write!(f, "write-out: {size} other bytes"),
            Came::Out(Err(refusal)) => write!(f, "write-out: {refusal}"),
            Came::Finish(answer) => {
                write!(f, "finish: ")?;
                show(f, *answer)
            }
        }
    }
}

/// A list of calls under a kind: the sizes of nodes, cells, text, scratch and output, and the calls.
fn write<C: Column>(
    alloc: Global,
    kind: &C,
    sizes: [usize; 5],
    list: &str,
    answers: &str,
) -> anyhow::Result<Option<Came>> {
    let [nodes, cells, text, scratch, output] = sizes;
    let Parts { nodes, cells, text } = writer_tables(alloc, nodes, cells, text)?;
    let mut writer = Writer::new(nodes, cells, text);
    let mut answers = answers.split(';');
    for (number, told) in calls(alloc, list)?.iter().enumerate() {
        let stored = call_reply(answers.next().context("a call without an answer")?)?;
        let answer = writer.call(told.call());
        if !same_answer(answer, stored) {
            return Ok(Some(Came::Call(number, answer)));
        }
    }
    let stored = out_reply(alloc, answers.next().context("no answer of write-out")?)?;
    ensure!(answers.next().is_none(), "more answers than calls");
    let mut scratch = vec![in alloc; 0u64; scratch]?;
    let mut output = vec![in alloc; 0u8; output]?;
    let answer = writer.close().write_out(kind, &mut scratch, &mut output);
    Ok((!same_output(answer, &stored, &output)).then_some(Came::Out(answer)))
}

/// A list of questions under a kind: the sizes of nodes and slots, the input and the questions.
fn read<C: Column>(
    alloc: Global,
    kind: &C,
    sizes: [usize; 2],
    input: &[u8],
    list: &str,
    answers: &str,
) -> anyhow::Result<Option<Came>> {
    let [nodes, slots] = sizes;
    let ReaderParts { nodes, slots } = reader_tables(alloc, nodes, slots)?;
    let mut reader = Reader::new(kind, input, nodes, slots);
    let mut answers = answers.split(';');
    for (number, question) in questions(alloc, list)?.iter().enumerate() {
        let text = answers.next().context("a question without an answer")?;
        let stored = question_reply(alloc, *question, text)?;
        let answer = reader.ask(*question);
        if !says_reply(answer, &stored, input) {
            return Ok(Some(Came::Question(number, answer.map(|_| ()))));
        }
    }
    let stored = finish_reply(answers.next().context("no answer of finish")?)?;
    ensure!(answers.next().is_none(), "more answers than questions");
    let answer = reader.finish();
    Ok((!same_answer(answer, stored)).then_some(Came::Finish(answer)))
}

/// What came of a line with calls, their kind by its name, and their answers.
pub(crate) fn write_line(
    alloc: Global,
    words: &mut Words<'_>,
    answers: &str,
) -> anyhow::Result<Option<Came>> {
    let kind = words.word()?;
    let sizes = [
        words.size()?,
        words.size()?,
        words.size()?,
        words.size()?,
        words.size()?,
    ];
    let list = words.rest();
    match kind {
        "flat" => write(alloc, &Flat, sizes, list, answers),
        "short" => write(alloc, &Short, sizes, list, answers),
        "steps/flat" => write(alloc, &STEPS_FLAT, sizes, list, answers),
        "steps/short" => write(alloc, &STEPS_SHORT, sizes, list, answers),
        _ => Err(anyhow!("an unknown kind")),
    }
}

/// What came of a line with questions, their kind by its name, and their answers.
pub(crate) fn read_line(
    alloc: Global,
    words: &mut Words<'_>,
    answers: &str,
) -> anyhow::Result<Option<Came>> {
    let kind = words.word()?;
    let sizes = [words.size()?, words.size()?];
    let input = bytes(alloc, words.word()?)?;
    let list = words.rest();
    match kind {
        "flat" => read(alloc, &Flat, sizes, &input, list, answers),
        "short" => read(alloc, &Short, sizes, &input, list, answers),
        "steps/flat" => read(alloc, &STEPS_FLAT, sizes, &input, list, answers),
        "steps/short" => read(alloc, &STEPS_SHORT, sizes, &input, list, answers),
        _ => Err(anyhow!("an unknown kind")),
    }
}
