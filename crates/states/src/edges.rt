//! The last that is accepted, and the first that is refused, by a writer and by a reader.

use crate::shown::{show_answer, show_questions};
use crate::tables::{Tables, begin, for_numbers};
use crate::telling::call_each;
use column::flat::Flat;
use de::reader::questions::Parts as ReaderParts;
use document::calls::Call;
use document::limits::{LIMIT, MOST_WITHOUT_SIZE};
use document::questions::Question;
use ser::writer::calls::Parts;
use std::io;

/// Tables for an option in an option, 33 times: the unused record, and a node and an index for each.
const OPTIONS: usize = 34;

/// The length before `LIMIT` under flat columns, and `LIMIT`.
const MOST_BYTES: [u8; 9] = [255, 254, 255, 255, 255, 255, 255, 7, 0];

const LIMIT_BYTES: [u8; 9] = [255, 255, 255, 255, 255, 255, 255, 7, 0];

/// The length `MOST_WITHOUT_SIZE` under flat columns, and the next one.
const UNSIZED_MOST: [u8; 9] = [255, 0, 0, 1, 0, 0, 0, 0, 0];

const PAST_UNSIZED: [u8; 9] = [255, 1, 0, 1, 0, 0, 0, 0, 0];

/// Tells a new writer these calls.
fn show_calls(
    rt: &HostRuntime,
    title: &str,
    calls: &[Call<'_>],
    tables: Parts,
) -> io::Result<Parts> {
    let mut writer = begin(tables);
    show_answer(rt, title, call_each(&mut writer, calls))?;
    Ok(writer.close().into_tables())
}

/// Shows the edges of what a writer accepts.
fn show_writer_edges(rt: &HostRuntime, tables: Parts) -> io::Result<Parts> {
    let options = [Call::Some; 33];
    let most = [Call::Seq(LIMIT - 1)];
    let past = [Call::Seq(LIMIT)];
    let unflagged = [Call::Seq(MOST_WITHOUT_SIZE + 1)];
    let tables = show_calls(rt, "writer, seq 2251799813685246", &most, tables)?;
    let tables = show_calls(rt, "writer, seq 2251799813685247", &past, tables)?;
    let tables = show_calls(
        rt,
        "writer, which has no flag, seq 65537",
        &unflagged,
        tables,
    )?;
    let tables = show_calls(rt, "writer, some 32 times", &options[..32], tables)?;
    show_calls(rt, "writer, some 33 times", &options, tables)
}

/// Shows the edges of the lengths that a reader accepts.
fn show_length_edges(rt: &HostRuntime, tables: ReaderParts) -> io::Result<ReaderParts> {
    let list = [Question::Seq { no_size: false }];
    let flagged = [Question::Seq { no_size: true }];
    let title = "reader, seq 2251799813685246";
    let tables = show_questions(rt, title, &Flat, &MOST_BYTES, &list, tables)?;
    let title = "reader, seq 2251799813685247";
    let tables = show_questions(rt, title, &Flat, &LIMIT_BYTES, &list, tables)?;
    let title = "reader, flagged seq 65536";
    let tables = show_questions(rt, title, &Flat, &UNSIZED_MOST, &flagged, tables)?;
    let title = "reader, flagged seq 65537";
    show_questions(rt, title, &Flat, &PAST_UNSIZED, &flagged, tables)
}

/// Shows the edge of the places that a reader opens.
fn show_place_edges(rt: &HostRuntime, tables: ReaderParts) -> io::Result<ReaderParts> {
    let options = [Question::Option; 33];
    let input = [1; 33];
    let title = "reader, some 32 times";
    let tables = show_questions(rt, title, &Flat, &input, &options[..32], tables)?;
    show_questions(rt, "reader, some 33 times", &Flat, &input, &options, tables)
}

/// Shows the edges of what is accepted.
pub(crate) fn show_edges(rt: &HostRuntime) -> io::Result<()> {
    println!(rt; "at the edges")?;
    let Tables { writer, reader } = for_numbers(rt.alloc(), OPTIONS)?;
    show_writer_edges(rt, writer)?;
    let reader = show_length_edges(rt, reader)?;
    show_place_edges(rt, reader)?;
    Ok(())
}
