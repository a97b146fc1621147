//! Asks the crates `column` and `utf8` the questions of the data files, and compares their answers with the stored ones.
#![tactic(auto)]

mod answer;
mod digest;
mod kind;
mod question;
mod strings;
mod tally;
mod words;

use crate::question::Question;
use crate::tally::Tally;
use anyhow::{Context, bail};
use std::alloc::Global;
use std::fs;

/// So many differences of a group are printed in full.
const SHOWN: u64 = 5;

/// What the crates answer to a line's question, where the line has another answer.
fn difference(alloc: Global, line: &str) -> anyhow::Result<Option<String>> {
    let (question, stored) = line.split_once(" = ").context("a line without an answer")?;
    let answer = Question::parse(alloc, question)?.answer(alloc)?;
    let text = answer.to_string(alloc)?;
    if text.as_str() == stored {
        return Ok(None);
    }
    Ok(Some(text))
}

/// Compares the lines below a group's title, and prints what came of them.
fn run_group(rt: &HostRuntime, group: &str) -> anyhow::Result<Tally> {
    let (title, lines) = group.split_once('\n').context("a group without a line")?;
    let mut tally = Tally::default();
    for line in lines.lines() {
        let found = difference(rt.alloc(), line)?;
        tally.count(found.is_none());
        if let Some(answer) = found {
            if tally.differed <= SHOWN {
                println!(rt; "differs: {line}")?;
                println!(rt; "    came: {answer}")?;
            }
        }
    }
    println!(rt; "{title}: {tally}")?;
    Ok(tally)
}

/// Compares every group of a file, and adds them to the total.
fn run_file(rt: &HostRuntime, name: &str, total: &mut Tally) -> anyhow::Result<()> {
    let text = fs::read_to_string(rt, name)?;
    println!(rt; "{name}")?;
    for group in text.split("\ngroup ").skip(1) {
        *total += run_group(rt, group)?;
    }
    Ok(())
}

fn main(rt: HostRuntime) -> anyhow::Result<()> {
    let mut total = Tally::default();
    run_file(&rt, "cases.txt", &mut total)?;
    run_file(&rt, "digests.txt", &mut total)?;
    println!(rt; "total: {total}")?;
    if total.differed > 0 {
        bail!("answers differ");
    }
    Ok(())
}
