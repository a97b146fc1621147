//! Write-outs that are refused, and one that is repeated.

use crate::examples::{ALONE, ANNA_AFTER};
use crate::shown::Size;
use crate::tables::begin;
use crate::telling::{Tell, told};
use column::flat::Flat;
use document::calls::Call;
use printing::Hex;
use ser::writer::Closed;
use ser::writer::calls::Parts;
use std::alloc::{AllocError, Global};
use std::io;

/// What both buffers are full of before a write-out.
const MARK: u8 = 0xaa;

/// The cells that Anna alone takes: the lengths of the table, the name, the hand and the map, the two cards in the hand, three grants of a card and an index each, and two seats.
const CELLS_TAKEN: usize = 14;

/// The bytes of Anna alone under flat columns: one for each cell, and four letters.
const SIZE: usize = 18;

/// A scratch and an output.
#[derive(Drop)]
struct Buffers {
    scratch: Vec<u64>,
    output: Vec<u8>,
}

impl Buffers {
    /// Buffers of these lengths, full of marks.
    fn marked(heap: Global, scratch: usize, output: usize) -> Result<Buffers, AllocError> {
        Ok(Buffers {
            scratch: vec![in heap; u64::from(MARK); scratch]?,
            output: vec![in heap; MARK; output]?,
        })
    }
}

/// What became of a buffer that was full of marks, in words.
fn condition<T: Copy + PartialEq + From<u8>>(buffer: &[T]) -> &'static str {
    if buffer.iter().all(|x| *x == T::from(MARK)) {
        "untouched"
    } else if buffer.iter().all(|x| *x == T::from(0)) {
        "zero"
    } else {
        "written"
    }
}

/// Writes a document out into buffers of these lengths, and prints the answer and what became of them.
fn show_attempt(
    rt: &HostRuntime,
    title: &str,
    closed: &Closed,
    scratch: usize,
    output: usize,
) -> io::Result<()> {
    let mut buffers = Buffers::marked(rt.alloc(), scratch, output)?;
    let answer = closed.write_out(
        &Flat,
        buffers.scratch.as_mut_slice(),
        buffers.output.as_mut_slice(),
    );
    match answer {
        Ok(size) => {
            let size = Size(size);
            let bytes = Hex(buffers.output.as_slice());
            println!(rt; "  {title}: {size}; the output is {bytes}")?;
        }
        Err(refusal) => println!(rt; "  {title}: {refusal}")?,
    }
    let scratch = condition(&buffers.scratch);
    let output = condition(&buffers.output);
    println!(rt; "    scratch {scratch}, output {output}")
}

/// A table of two seats that is closed after the first.
fn show_early(rt: &HostRuntime, tables: Parts) -> io::Result<Parts> {
    let mut writer = begin(tables);
    let announced = writer.call(Call::Seq(2));
    let told = ANNA_AFTER.tell(&mut writer);
    let closed = writer.close();
    if announced.is_ok() && told.is_ok() {
        show_attempt(
            rt,
            "closed after one of two seats",
            &closed,
            CELLS_TAKEN,
            SIZE,
        )?;
    }
    Ok(closed.into_tables())
}

/// Shows what a write-out refuses and leaves, and that it can be repeated.
pub(crate) fn show_attempts(rt: &HostRuntime, tables: Parts) -> io::Result<Parts> {
    println!(rt; "write-out")?;
    let tables = show_early(rt, tables)?;
    let (closed, _) = told(tables, ALONE);
    show_attempt(
        rt,
        "one cell of scratch too few",
        &closed,
        CELLS_TAKEN - 1,
        SIZE,
    )?;
    show_attempt(
        rt,
        "one byte of output too few",
        &closed,
        CELLS_TAKEN,
        SIZE - 1,
    )?;
    show_attempt(
        rt,
        "two bytes of output more than it takes",
        &closed,
        CELLS_TAKEN,
        SIZE + 2,
    )?;
    show_attempt(rt, "once more", &closed, CELLS_TAKEN, SIZE + 2)?;
    Ok(closed.into_tables())
}
