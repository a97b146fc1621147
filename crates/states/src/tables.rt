//! The tables that writers take over from one another, and readers likewise.

ghost use Rattle.std.specs.Prelude.{◌≡◌, [], IfOk, vec_len};
ghost use Rattle.ser.specs.Standing.{Stands};
ghost use Rattle.replay.specs.Given.{sizes_at, sizes_for};

use de::reader::questions::Parts as ReaderParts;
use de::records::Node as ReaderNode;
use ser::records::{Cell, Node};
use ser::writer::Writer;
use ser::writer::calls::Parts;
use std::alloc::{AllocError, Global};

/// Node records for any state: the unused one, the root, its seats, their three fields, a hand's cards, a map's keys and values, and what follows a `some` and a `none`.
const NODES: usize = 11;

/// Cells for a state: the unused one, and 63 numbers, indices and lengths.
pub(crate) const CELLS: usize = 64;

/// Bytes for all names of a state.
const LETTERS: usize = 32;

/// The tables of a writer, and those of a reader.
#[derive(Drop)]
pub(crate) struct Tables {
    pub(crate) writer: Parts,
    pub(crate) reader: ReaderParts,
}

/// Tables for a writer, of these lengths.
fn writer_tables(
    heap: Global,
    nodes: usize,
    cells: usize,
    letters: usize,
) -> Result<Parts, AllocError>
    ensures { IfOk result (λ tables. (vec_len tables.nodes ≡ nodes) × (vec_len tables.cells ≡ cells) × (vec_len tables.text ≡ letters)) }
{
    Ok(Parts {
        nodes: vec![in heap; Node::blank(); nodes]?,
        cells: vec![in heap; Cell::blank(); cells]?,
        text: vec![in heap; 0u8; letters]?,
    })
}

/// Tables for a reader, of these lengths.
pub(crate) fn reader_tables(
    heap: Global,
    nodes: usize,
    slots: usize,
) -> Result<ReaderParts, AllocError>
    ensures { IfOk result (λ tables. (vec_len tables.nodes ≡ nodes) × (vec_len tables.slots ≡ slots)) }
{
    Ok(ReaderParts {
        nodes: vec![in heap; ReaderNode::blank(); nodes]?,
        slots: vec![in heap; 0u64; slots]?,
    })
}

/// Tables for the first writer and the first reader of a state: the reader's are as large as the writer's, which suffices.
pub(crate) fn for_states(heap: Global) -> Result<Tables, AllocError>
    ensures writer { IfOk result (λ tables. (vec_len tables.writer.nodes ≡ NODES) × (vec_len tables.writer.cells ≡ CELLS) × (vec_len tables.writer.text ≡ LETTERS)) }
    ensures reader { IfOk result (λ tables. (vec_len tables.reader.nodes ≡ NODES) × (vec_len tables.reader.slots ≡ CELLS)) }
{
    Ok(Tables {
        writer: writer_tables(heap, NODES, CELLS, LETTERS)?,
        reader: reader_tables(heap, NODES, CELLS)?,
    })
}

/// Tables for so many nodes and as many numbers, with no text.
pub(crate) fn for_numbers(heap: Global, count: usize) -> Result<Tables, AllocError> {
    Ok(Tables {
        writer: writer_tables(heap, count, count, 0)?,
        reader: reader_tables(heap, count, count)?,
    })
}

/// The next writer over the tables.
pub(crate) fn begin(tables: Parts) -> Writer
    ensures stands { Stands result.desk [] }
    ensures sizes { sizes_at result ≡ sizes_for tables }
{
    let Parts { nodes, cells, text } = tables;
    Writer::new(nodes, cells, text)
}
