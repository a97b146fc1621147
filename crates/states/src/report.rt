//! The states, written out under each kind.

use crate::examples::{DEALT, EMPTY, PLAYED};
use crate::message::message;
use crate::shown::Size;
use crate::state::TableState;
use crate::telling::told;
use column::flat::Flat;
use column::interface::Column;
use column::short::Short;
use column::steps::Steps;
use printing::Hex;
use ser::writer::Closed;
use ser::writer::calls::Parts;
use std::io;

/// Prints the bytes of a document under a kind.
pub(crate) fn show_kind<C: Column>(
    rt: &HostRuntime,
    title: &str,
    closed: &Closed,
    kind: &C,
) -> io::Result<()> {
    match message(rt.alloc(), closed, kind) {
        Ok(bytes) => {
            let size = Size(bytes.len());
            let bytes = Hex(bytes.as_slice());
            println!(rt; "  {title}, {size}: {bytes}")
        }
        Err(error) => println!(rt; "  {title}: {error}"),
    }
}

/// Prints the bytes of a document under each kind.
fn show_kinds(rt: &HostRuntime, closed: &Closed) -> io::Result<()> {
    show_kind(rt, "flat", closed, &Flat)?;
    show_kind(rt, "short", closed, &Short)?;
    show_kind(rt, "steps over flat", closed, &Steps { lower: Flat })
}

/// Prints a state and its bytes, and gives the tables back.
fn show_state(
    rt: &HostRuntime,
    title: &str,
    state: TableState<'_>,
    tables: Parts,
) -> io::Result<Parts> {
    println!(rt; "{title}")?;
    for (number, seat) in state.seats.iter().enumerate() {
        println!(rt; "  seat {number}: {seat}")?;
    }
    let (closed, answer) = told(tables, state);
    match answer {
        Ok(()) => show_kinds(rt, &closed)?,
        Err(refusal) => println!(rt; "  {refusal}")?,
    }
    Ok(closed.into_tables())
}

/// Prints how large the tables are, and each state with its bytes. Each writer goes on with the tables of the one before.
pub(crate) fn show_states(rt: &HostRuntime, tables: Parts) -> io::Result<Parts> {
    let nodes = tables.nodes.len();
    let cells = tables.cells.len();
    let text = tables.text.len();
    println!(rt; "tables of {nodes} node records, {cells} cells and {text} bytes of text")?;
    let tables = show_state(rt, "an empty table", EMPTY, tables)?;
    let tables = show_state(rt, "the deal", DEALT, tables)?;
    show_state(rt, "a card discarded", PLAYED, tables)
}
