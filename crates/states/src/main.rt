//! Writes states of a card table as documents, reads them back, and shows what a writer and a reader refuse.
#![tactic(auto)]

use attempts::show_attempts;
use edges::show_edges;
use incident::show_incident;
use readback::show_readback;
use report::show_states;
use std::io;
use tables::Tables;
use trips::{show_apart, show_trips};
use unreadable::show_unreadable;

mod asking;
mod attempts;
mod edges;
mod examples;
mod incident;
mod looking;
mod message;
mod readback;
mod reading;
mod report;
mod shown;
mod state;
mod tables;
mod telling;
mod trips;
mod unreadable;

fn main(rt: HostRuntime) -> io::Result<()> {
    let Tables { writer, reader } = tables::for_states(rt.alloc())?;
    let writer = show_states(&rt, writer)?;
    let writer = show_incident(&rt, writer)?;
    let writer = show_attempts(&rt, writer)?;
    let tables = show_readback(&rt, Tables { writer, reader })?;
    let Tables { writer, reader } = show_trips(&rt, tables)?;
    show_apart(&rt, writer)?;
    show_unreadable(&rt, reader)?;
    show_edges(&rt)
}
