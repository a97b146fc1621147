//! The tables and buffers of all lines that come from the reference.

use de::reader::questions::Parts as ReaderParts;
use de::records::Node as ReaderNode;
use document::limits::{MOST_CELLS, MOST_NODES, MOST_TEXT};
use ser::records::{Cell, Node};
use ser::writer::calls::Parts as WriterParts;
use std::alloc::{AllocError, Global};

/// Bytes of output for one document: as many as full tables can come to.
const OUTPUT: usize = 8 * MOST_CELLS + MOST_TEXT;

/// Tables and buffers that one line hands on to the next.
#[derive(Drop)]
pub(crate) struct Bench {
    pub(crate) writer: WriterParts,
    pub(crate) reader: ReaderParts,
    pub(crate) scratch: Vec<u64>,
    pub(crate) output: Vec<u8>,
}

/// Tables for a writer, of these lengths.
pub(crate) fn writer_tables(
    alloc: Global,
    nodes: usize,
    cells: usize,
    text: usize,
) -> Result<WriterParts, AllocError> {
    Ok(WriterParts {
        nodes: vec![in alloc; Node::blank(); nodes]?,
        cells: vec![in alloc; Cell::blank(); cells]?,
        text: vec![in alloc; 0u8; text]?,
    })
}

/// Tables for a reader, of these lengths.
pub(crate) fn reader_tables(
    alloc: Global,
    nodes: usize,
    slots: usize,
) -> Result<ReaderParts, AllocError> {
    Ok(ReaderParts {
        nodes: vec![in alloc; ReaderNode::blank(); nodes]?,
        slots: vec![in alloc; 0u64; slots]?,
    })
}

impl Bench {
    /// Tables as large as they can be used.
    pub(crate) fn new(alloc: Global) -> Result<Bench, AllocError> {
        Ok(Bench {
            writer: writer_tables(alloc, MOST_NODES, MOST_CELLS, MOST_TEXT)?,
            reader: reader_tables(alloc, MOST_NODES, MOST_CELLS)?,
            scratch: vec![in alloc; 0u64; MOST_CELLS]?,
            output: vec![in alloc; 0u8; OUTPUT]?,
        })
    }
}
