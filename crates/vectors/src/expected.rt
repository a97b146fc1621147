//! The answers of the reference.

use crate::calls::{Told, bytes};
use anyhow::{anyhow, ensure};
use document::questions::Question;
use std::alloc::Global;

/// What the reference made of a list of calls.
#[derive(Drop)]
pub enum Written {
    Bytes(Vec<u8>),
    /// An `Err`.
    Error,
    /// A panic, "type changed".
    TypeChanged,
    /// A panic, "length mismatch".
    LengthMismatch,
}

impl Written {
    pub(crate) fn parse(alloc: Global, text: &str) -> anyhow::Result<Written> {
        match text {
            "error" => Ok(Written::Error),
            "type changed" => Ok(Written::TypeChanged),
            "length mismatch" => Ok(Written::LengthMismatch),
            _ => match text.strip_prefix("bytes ") {
                Some(digits) => Ok(Written::Bytes(bytes(alloc, digits)?)),
                None => Err(anyhow!("an unknown answer of a writer")),
            },
        }
    }
}

/// How the reference ended a reading, after the values that it answered.
#[derive(Clone, Copy)]
pub enum Ending {
    /// All questions were answered, and no byte was left.
    Whole,
    /// All questions were answered, and bytes were left: an `Err`.
    Left,
    /// An `Err` at the next question.
    Error,
    /// A panic at the next question, "type changed".
    TypeChanged,
    /// The next question does not fit the answers so far, or is missing.
    Unfit,
}

/// What the reference answered a list of questions.
#[derive(Drop)]
pub struct Read {
    pub values: Vec<Told>,
    pub ending: Ending,
}

impl Read {
    pub(crate) fn parse(alloc: Global, text: &str, questions: &[Question]) -> anyhow::Result<Read> {
        let (word, list) = text.split_once(' ').unwrap_or((text, ""));
        let ending = match word {
            "whole" => Ending::Whole,
            "left" => Ending::Left,
            "error" => Ending::Error,
            "changed" => Ending::TypeChanged,
            "unfit" => Ending::Unfit,
            _ => return Err(anyhow!("an unknown answer of a reader")),
        };
        let values = values(alloc, list, questions)?;
        Ok(Read { values, ending })
    }
}

/// The calls that these values, with ';' between, are of, by the first of these questions.
fn values(alloc: Global, list: &str, questions: &[Question]) -> anyhow::Result<Vec<Told>> {
    let mut values = Vec::new(alloc);
    if list.is_empty() {
        return Ok(values);
    }
    for (place, value) in list.split(';').enumerate() {
        ensure!(place < questions.len(), "a value without a question");
        values.push(Told::valued(alloc, questions[place], value)?)?;
    }
    Ok(values)
}
