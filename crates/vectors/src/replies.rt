//! Answers with their numbers, as they were worked out from the documents.

ghost use Rattle.std.specs.Prelude.{◌≡◌, Decides};
ghost use Rattle.vectors.specs.Replies.{refused_by, SameAnswer, SaysReply, SameOutput};

use crate::calls::{Told, bytes};
use anyhow::{Context, anyhow};
use document::questions::{Answer, Question};
use document::refusals::Refusal;
use replay::says::says;
use std::alloc::Global;

/// A refusal by its number, and for a column's fault the column and the layer.
#[derive(Clone, Copy, PartialEq, Eq)]
pub struct Refused {
    pub number: u8,
    pub fault: Option<Place>,
}

/// The column that a fault was found in, and the layer that found it.
#[derive(Clone, Copy, PartialEq, Eq)]
pub struct Place {
    pub column: u32,
    pub layer: u16,
}

impl Refused {
    /// The refusal of a text as `!4` or `!8 column 1 layer 0`.
    fn parse(text: &str) -> anyhow::Result<Option<Refused>> {
        let Some(text) = text.strip_prefix("!") else {
            return Ok(None);
        };
        let Some((number, place)) = text.split_once(" column ") else {
            let number = text.parse::<u8>()?;
            let fault = None;
            return Ok(Some(Refused { number, fault }));
        };
        let (column, layer) = place
            .split_once(" layer ")
            .context("a column without a layer")?;
        let fault = Place {
            column: column.parse::<u32>()?,
            layer: layer.parse::<u16>()?,
        };
        Ok(Some(Refused {
            number: number.parse::<u8>()?,
            fault: Some(fault),
        }))
    }
}

impl From<Refusal> for Refused {
    ghost from_gives = { λ refusal refused. refused ≡ refused_by refusal };

    fn from(refusal: Refusal) -> Refused {
        let fault = match refusal {
            Refusal::Short { layer, column } | Refusal::Bad { layer, column } => {
                Some(Place { column, layer })
            }
            _ => None,
        };
        Refused {
            number: refusal.number(),
            fault,
        }
    }
}

/// The answer to a call: `ok`, or a refusal.
pub(crate) fn call_reply(text: &str) -> anyhow::Result<Result<(), Refused>> {
    match Refused::parse(text)? {
        Some(refused) => Ok(Err(refused)),
        None if text == "ok" => Ok(Ok(())),
        None => Err(anyhow!("an unknown answer to a call")),
    }
}

/// The answer of write-out: `bytes` and the bytes, or a refusal.
pub(crate) fn out_reply(alloc: Global, text: &str) -> anyhow::Result<Result<Vec<u8>, Refused>> {
    if let Some(refused) = Refused::parse(text)? {
        return Ok(Err(refused));
    }
    let digits = text
        .strip_prefix("bytes ")
        .context("an unknown answer of write-out")?;
    Ok(Ok(bytes(alloc, digits)?))
}

/// The answer to a question: the value, or a refusal.
pub(crate) fn question_reply(
    alloc: Global,
    question: Question,
    text: &str,
) -> anyhow::Result<Result<Told, Refused>> {
    match Refused::parse(text)? {
        Some(refused) => Ok(Err(refused)),
        None => Ok(Ok(Told::valued(alloc, question, text)?)),
    }
}

/// The answer of finish: `done`, or a refusal.
pub(crate) fn finish_reply(text: &str) -> anyhow::Result<Result<(), Refused>> {
    match Refused::parse(text)? {
        Some(refused) => Ok(Err(refused)),
        None if text == "done" => Ok(Ok(())),
        None => Err(anyhow!("an unknown answer of finish")),
    }
}

/// Whether an answer without a value is the stored one.
pub(crate) fn same_answer(answer: Result<(), Refusal>, stored: Result<(), Refused>) -> bool
    ensures { Decides result (SameAnswer answer stored) }
{
    match (answer, stored) {
        (Ok(()), Ok(())) => true,
        (Err(refusal), Err(stored)) => Refused::from(refusal) == stored,
        _ => false,
    }
}

/// Whether the answer to a question is the stored one.
pub(crate) fn says_reply(
    answer: Result<Answer, Refusal>,
    stored: &Result<Told, Refused>,
    input: &[u8],
) -> bool
    ensures { Decides result (SaysReply answer stored.now input.now) }
{
    match (answer, stored) {
        (Ok(answer), Ok(told)) => says(answer, told.call(), input),
        (Err(refusal), Err(stored)) => Refused::from(refusal) == *stored,
        _ => false,
    }
}

/// Whether write-out's answer is the stored one, and the output begins with the stored bytes.
pub(crate) fn same_output(
    answer: Result<usize, Refusal>,
    stored: &Result<Vec<u8>, Refused>,
    output: &[u8],
) -> bool
    ensures { Decides result (SameOutput answer stored.now output.now) }
{
    match (answer, stored) {
        (Ok(size), Ok(bytes)) => output.get(..size) == Some(bytes.as_slice()),
        (Err(refusal), Err(stored)) => Refused::from(refusal) == *stored,
        _ => false,
    }
}
