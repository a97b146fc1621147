//! What the program prints of a table.

use crate::packing::there_and_back;
use crate::table::{Entry, TableColumn};
use crate::trial::Trial;
use column::flat::Flat;
use column::interface::Column;
use column::short::Short;
use column::steps::Steps;
use printing::{Hex, Spaced};
use std::io;

/// Whether what came back is what was packed, in words.
fn verdict(same: bool) -> &'static str {
    if same { "as packed" } else { "NOT as packed" }
}

/// Packs and unpacks a column under a kind, and prints the bytes and what came back.
fn show_kind<C: Column>(
    rt: &HostRuntime,
    title: &str,
    kind: &C,
    column: &TableColumn,
) -> io::Result<()> {
    match Trial::run(rt.alloc(), kind, column) {
        Ok(trial) => {
            let size = trial.bytes.len();
            let bytes = Hex(&trial.bytes);
            let values = Spaced(&trial.values);
            let word = verdict(trial.values == column.values);
            println!(rt; "  {title}, {size} bytes: {bytes}")?;
            println!(rt; "    back: {values}, {word}")
        }
        Err(error) => println!(rt; "  {title}: {error}"),
    }
}

/// Takes a column there and back in place, through two layers of steps.
fn show_round_trip(rt: &HostRuntime, column: &TableColumn) -> io::Result<()> {
    let alloc = rt.alloc();
    let kind = Steps {
        lower: Steps { lower: Flat },
    };
    let mut values = Vec::from_slice(alloc, &column.values)?;
    match there_and_back(alloc, &kind, column.width, &mut values, column.room()) {
        Ok(size) => {
            let word = verdict(values == column.values);
            let values = Spaced(&values);
            println!(rt; "  through two layers of steps and back, {size} bytes: {values}, {word}")
        }
        Err(error) => println!(rt; "  through two layers of steps and back: {error}"),
    }
}

/// Prints a column under each kind.
fn show_column(rt: &HostRuntime, column: &TableColumn) -> io::Result<()> {
    let name = &column.name;
    let width = column.width;
    let values = Spaced(&column.values);
    println!(rt; "{name}, width {width}: {values}")?;
    show_kind(rt, "flat", &Flat, column)?;
    show_kind(rt, "short", &Short, column)?;
    let over_flat = Steps { lower: Flat };
    show_kind(rt, "steps over flat", &over_flat, column)?;
    show_kind(rt, "steps over short", &Steps { lower: Short }, column)?;
    let twice = Steps { lower: over_flat };
    show_kind(rt, "steps over steps over flat", &twice, column)?;
    show_round_trip(rt, column)
}

/// Prints whether the name at a seat is well-formed text.
fn show_seat(rt: &HostRuntime, name: &[u8]) -> io::Result<()> {
    let bytes = Hex(name);
    match utf8::well_formed(name) {
        Ok(()) => {
            let text = std::str::from_utf8(name).unwrap_or("");
            println!(rt; "seat {bytes}: well-formed, {text}")
        }
        Err(_) => println!(rt; "seat {bytes}: not well-formed"),
    }
}

/// Prints each line of the table, and passes over those that cannot be read.
pub(crate) fn show_table(rt: &HostRuntime, text: &[u8]) -> io::Result<()> {
    let lines = text.split_inclusive(|byte| *byte == b'\n');
    for (number, line) in (1u64..).zip(lines) {
        let line = line.strip_suffix(b"\n").unwrap_or(line);
        match Entry::parse(rt.alloc(), line) {
            Ok(Entry::Column(column)) => show_column(rt, &column)?,
            Ok(Entry::Seat(name)) => show_seat(rt, name)?,
            Err(error) => println!(rt; "line {number} is passed over: {error}")?,
        }
    }
    Ok(())
}
