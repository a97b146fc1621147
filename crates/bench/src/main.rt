//! Writes and reads made-up documents of four shapes, as often as it is told, so that both can be measured from outside.
#![tactic(auto)]

mod chance;
mod digest;
mod job;
mod listening;
mod plan;
mod script;
mod shown;
mod tables;
mod tally;
mod writing;

use crate::plan::{Phase, Plan, Shape};
use std::env;

/// What is run where no plan is given: a small document of each shape, compared with what is read back, and read once more.
const SMALL: [(Shape, u32); 4] = [
    (Shape::Seats, 4),
    (Shape::Numbers, 16),
    (Shape::Plain, 12),
    (Shape::Scripts, 12),
];

fn main(rt: HostRuntime) -> anyhow::Result<()> {
    let words: Vec<String> = env::args(&rt)?.skip(1).collect(rt.alloc())?;
    if !words.is_empty() {
        return job::run(&rt, Plan::parse(&words)?);
    }
    for (shape, items) in SMALL {
        for phase in [Phase::Trip, Phase::Read] {
            let plan = Plan {
                shape,
                items,
                phase,
                times: 1,
            };
            job::run(&rt, plan)?;
        }
    }
    Ok(())
}
