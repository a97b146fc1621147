//! The incident that the writer guards against: a list that has fewer elements than it announced.

use crate::examples::{ANNA_AFTER, MENDED};
use crate::message::{MessageError, message, send};
use crate::report::show_kind;
use crate::shown::show_answer;
use crate::state::{Grant, Seat};
use crate::tables::begin;
use crate::telling::{Tell, call_each};
use column::flat::Flat;
use document::calls::Call;
use document::refusals::Refusal;
use ser::writer::Writer;
use ser::writer::calls::Parts;
use std::io;

/// The grants of a seat that pass this test.
fn tell_grants<F: Fn(&Grant) -> bool>(
    seat: &Seat,
    passes: F,
    writer: &mut Writer,
) -> Result<(), Refusal>
    requires { F.IsAlwaysCallable passes }
{
    for grant in seat.grants {
        if passes(grant) {
            grant.tell(writer)?;
        }
    }
    Ok(())
}

/// A table of one seat, up to its map: the map announces all grants, and those of discarded cards are then left out.
fn tell_held(seat: &Seat, writer: &mut Writer) -> Result<(), Refusal> {
    writer.call(Call::Seq(1))?;
    seat.tell_hand(writer)?;
    writer.call(Call::Map(seat.grants.len() as u64))?;
    tell_grants(seat, |grant| grant.seat.is_some(), writer)
}

/// Whether both are the same bytes.
fn is_same(one: &Result<Vec<u8>, MessageError>, other: &Result<Vec<u8>, MessageError>) -> bool {
    matches!((one, other), (Ok(one), Ok(other)) if one == other)
}

/// Shows that an early end is refused and changes nothing: the list is completed, and the bytes are those of a writer that refused nothing.
pub(crate) fn show_incident(rt: &HostRuntime, tables: Parts) -> io::Result<Parts> {
    let seat = &ANNA_AFTER;
    println!(rt; "a map of three grants that is given two")?;
    println!(rt; "  seat 0: {seat}")?;
    let mut writer = begin(tables);
    show_answer(
        rt,
        "the table up to map 3, and the grants of two cards",
        tell_held(seat, &mut writer),
    )?;
    show_answer(rt, "end", writer.call(Call::End))?;
    show_answer(rt, "end again", writer.call(Call::End))?;
    show_answer(
        rt,
        "the discarded card, and none",
        tell_grants(seat, |grant| grant.seat.is_none(), &mut writer),
    )?;
    show_answer(
        rt,
        "end of the map, end of the seat, end of the table",
        call_each(&mut writer, &[Call::End; 3]),
    )?;
    let closed = writer.close();
    show_kind(rt, "flat", &closed, &Flat)?;
    let mended = message(rt.alloc(), &closed, &Flat);
    let tables = closed.into_tables();
    let (plain, tables) = send(rt.alloc(), tables, MENDED, &Flat);
    let same = is_same(&mended, &plain);
    println!(rt; "  the bytes of a writer that was told this order and refused nothing: {same}")?;
    Ok(tables)
}
