//! Groups of lines.

use crate::bench::Bench;
use crate::lines::{Outcome, run_line};
use crate::tally::Tally;
use crate::verdict::Verdict;
use anyhow::Context;

/// So many differences of a group are printed in full.
const SHOWN: u64 = 20;

/// Compares the lines below a group's title, and prints what came of them.
pub(crate) fn run_group(
    rt: &HostRuntime,
    group: &str,
    mut bench: Bench,
) -> anyhow::Result<(Tally, Bench)> {
    let (title, lines) = group.split_once('\n').context("a group without a line")?;
    let mut tally = Tally::new();
    for line in lines.lines() {
        let (Outcome { verdict, came }, next) = run_line(rt.alloc(), line, bench)?;
        bench = next;
        tally.count(verdict)?;
        if matches!(verdict, Verdict::Unlisted) && tally.unlisted <= SHOWN {
            println!(rt; "differs: {line}")?;
            if let Some(came) = came {
                println!(rt; "   came: {came}")?;
            }
        }
    }
    println!(rt; "{title}: {tally}")?;
    Ok((tally, bench))
}
