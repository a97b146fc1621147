//! Lines: what is asked, and what was answered.

use crate::bench::Bench;
use crate::calls::{bytes, calls, questions};
use crate::expected::{Read, Written};
use crate::reading::read;
use crate::single::{Came, read_line, write_line};
use crate::verdict::{Verdict, of_reading, of_writing};
use crate::words::Words;
use crate::writing::write;
use anyhow::{Context, anyhow};
use std::alloc::Global;

/// What is to be said of a line, and what came where it does not agree.
#[derive(Drop)]
pub(crate) struct Outcome {
    pub(crate) verdict: Verdict,
    pub(crate) came: Option<String>,
}

/// What came of a line whose answers are all stored.
fn single(alloc: Global, came: Option<Came>) -> anyhow::Result<Outcome> {
    Ok(match came {
        None => Outcome {
            verdict: Verdict::Same,
            came: None,
        },
        Some(came) => Outcome {
            verdict: Verdict::Unlisted,
            came: Some(came.to_string(alloc)?),
        },
    })
}

/// A list of calls beside what the reference made of it.
fn written(
    alloc: Global,
    list: &str,
    answer: &str,
    bench: Bench,
) -> anyhow::Result<(Outcome, Bench)> {
    let reference = Written::parse(alloc, answer)?;
    let calls = calls(alloc, list)?;
    let Bench {
        writer,
        reader,
        mut scratch,
        mut output,
    } = bench;
    let (wrote, writer) = write(alloc, &calls, writer, &mut scratch, &mut output)?;
    let verdict = of_writing(&reference, &wrote);
    let came = Some(wrote.to_string(alloc)?);
    let bench = Bench {
        writer,
        reader,
        scratch,
        output,
    };
    Ok((Outcome { verdict, came }, bench))
}

/// A list of questions beside what the reference answered.
fn heard(
    alloc: Global,
    words: &mut Words<'_>,
    answer: &str,
    bench: Bench,
) -> anyhow::Result<(Outcome, Bench)> {
    let input = bytes(alloc, words.word()?)?;
    let questions = questions(alloc, words.rest())?;
    let reference = Read::parse(alloc, answer, &questions)?;
    let Bench {
        writer,
        reader,
        scratch,
        output,
    } = bench;
    let (heard, reader) = read(alloc, &input, &questions, &reference, reader)?;
    let verdict = of_reading(&reference, heard);
    let came = Some(heard.to_string(alloc)?);
    let bench = Bench {
        writer,
        reader,
        scratch,
        output,
    };
    Ok((Outcome { verdict, came }, bench))
}

/// Does what a line asks, and compares.
pub(crate) fn run_line(
    alloc: Global,
    line: &str,
    bench: Bench,
) -> anyhow::Result<(Outcome, Bench)> {
    let (asked, answer) = line.split_once(" = ").context("a line without an answer")?;
    let mut words = Words::of(asked);
    match words.word()? {
        "write" => written(alloc, words.rest(), answer, bench),
        "read" => heard(alloc, &mut words, answer, bench),
        "calls" => Ok((
            single(alloc, write_line(alloc, &mut words, answer)?)?,
            bench,
        )),
        "asks" => Ok((single(alloc, read_line(alloc, &mut words, answer)?)?, bench)),
        _ => Err(anyhow!("an unknown line")),
    }
}
