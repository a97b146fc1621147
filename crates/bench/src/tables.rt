//! Tables and buffers that suffice for a document.

ghost use Rattle.std.specs.Prelude.{◌≡◌, ◌+◌, ◌*◌, ◌≤◌, min, IfOk, length, vec_len};

use de::reader::questions::Parts as ReaderParts;
use de::records::Node as ReaderNode;
use document::calls::Call;
use document::limits::{MOST_CELLS, MOST_TEXT};
use replay::steps::Step;
use ser::records::{Cell, Node};
use ser::writer::calls::Parts;
use std::alloc::{AllocError, Global};

/// Node records for each shape: the unused one, the root, its elements, and what stands in them.
const NODES: usize = 16;

/// A length of 255 or more takes two cells.
fn cells_for(steps: &[Step<'_>]) -> usize
    ensures { result ≤ 1048576 }
{
    steps.len().saturating_mul(2).min(MOST_CELLS)
}

/// The text bytes of a call.
fn letters_in(call: Call<'_>) -> usize {
    match call {
        Call::Text(letters) => letters.len(),
        _ => 0,
    }
}

fn letters_for(steps: &[Step<'_>]) -> usize
    ensures { result ≤ 16777216 }
{
    steps
        .iter()
        .fold(
            0usize,
            |sum, step| sum.saturating_add(letters_in(step.call)),
        )
        .min(MOST_TEXT)
}

/// The tables of a writer and of a reader, and the buffers of write-out.
#[derive(Drop)]
pub(crate) struct Room {
    pub(crate) writer: Parts,
    pub(crate) reader: ReaderParts,
    pub(crate) scratch: Vec<u64>,
    pub(crate) output: Vec<u8>,
}

/// Room for the document of these calls: no column has more than eight bytes for a cell.
pub(crate) fn room_for(heap: Global, steps: &[Step<'_>]) -> Result<Room, AllocError>
    ensures { IfOk result (λ room. (vec_len room.reader.nodes ≡ vec_len room.writer.nodes) × (vec_len room.reader.slots ≡ vec_len room.writer.cells)) }
{
    let cells = cells_for(steps);
    let letters = letters_for(steps);
    Ok(Room {
        writer: Parts {
            nodes: vec![in heap; Node::blank(); NODES]?,
            cells: vec![in heap; Cell::blank(); cells]?,
            text: vec![in heap; 0u8; letters]?,
        },
        reader: ReaderParts {
            nodes: vec![in heap; ReaderNode::blank(); NODES]?,
            slots: vec![in heap; 0u64; cells]?,
        },
        scratch: vec![in heap; 0u64; cells]?,
        output: vec![in heap; 0u8; 8 * cells + letters]?,
    })
}
