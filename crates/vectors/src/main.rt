//! Compares the writer and the reader with answers that were made outside, and says of each difference whether it is a known one.
#![tactic(auto)]

mod bench;
mod calls;
mod expected;
mod group;
mod known;
mod lines;
mod reading;
mod replies;
mod single;
mod tally;
mod verdict;
mod walk;
mod words;
mod writing;

use crate::bench::Bench;
use crate::group::run_group;
use crate::tally::Tally;
use anyhow::ensure;
use std::{env, fs};

/// Compares every group of a file, and adds them to the total.
fn run_file(
    rt: &HostRuntime,
    name: &str,
    mut bench: Bench,
    total: &mut Tally,
) -> anyhow::Result<Bench> {
    let text = fs::read_to_string(rt, name)?;
    println!(rt; "{name}")?;
    for group in text.split("\ngroup ").skip(1) {
        let (tally, next) = run_group(rt, group, bench)?;
        total.add(&tally)?;
        bench = next;
    }
    Ok(bench)
}

fn main(rt: HostRuntime) -> anyhow::Result<()> {
    let mut bench = Bench::new(rt.alloc())?;
    let mut total = Tally::new();
    for name in env::args(&rt)?.skip(1) {
        bench = run_file(&rt, name.as_str(), bench, &mut total)?;
    }
    println!(rt; "total: {total}")?;
    ensure!(
        total.unlisted == 0,
        "{} differences are on no list",
        total.unlisted
    );
    Ok(())
}
