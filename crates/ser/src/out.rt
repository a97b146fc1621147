//! Write-out: the columns of the marked nodes, in the order in which they were marked.

ghost use Rattle.std.specs.Prelude.{◌≡◌, ℕ, ◌-◌, ◌<◌, ◌≤◌, true, Option, length};
ghost use Rattle.std.specs.List.{filter_map};
ghost use Rattle.column.specs.Widths.{listed, Below};
ghost use Rattle.column.specs.Interface.{Written};
ghost use Rattle.document.specs.Columns.{length_bytes, joined};
ghost use Rattle.ser.specs.Moves.{sheets};
ghost use Rattle.ser.specs.Out.{in_chain, values_of, pieces_of, node_image, image_of, Pieces, Computes, EntriesFit, NodeSafe, OutSafe, ending, Put, Wrote};

use crate::records::{Cell, Node};
use crate::store::Tables;
use chain::{Chain, walk};
use column::interface::Column;
use document::limits::LONG;
use document::refusals::Refusal;
use nodes::marks::Mark;

/// One text; answers the place after it.
fn put_text(text: &[u8], output: &mut [u8], place: usize) -> Result<usize, Refusal>
    requires { place ≤ length output.old }
    ensures { Put place text.now output.old output.new result }
{
    // Stays: that the place is within the output is asked here and of two callers; a name for a bound would say no more.
    let end = place + text.len();
    if end > output.len() {
        return Err(Refusal::Room);
    }
    output[place..end].copy_from_slice(text);
    Ok(end)
}

// Stays: the kind, the scratch, the output and the place in it are handed on one by one; with a struct of them each contract would also have to say that its buffers are still the caller's.
impl Tables {
    /// A column of a chain's values; answers the place after it.
    ///
    /// `entry` says which number stands in the column for a value, if any does.
    fn write_column<C: Column, F: Fn(u64) -> Option<u64>>(
        &self,
        kind: &C,
        width: u32,
        chain: Chain,
        entry: F,
        scratch: &mut [u64],
        output: &mut [u8],
        place: usize,
    ) -> Result<usize, Refusal>
        requires callable { F.IsAlwaysCallable entry }
        requires width { listed width ≡ true }
        requires fits { EntriesFit (F.post entry) width (values_of self.now.cells.items chain) }
        requires room { length (in_chain self.now.cells.items chain) ≤ length scratch.old }
        ensures { (column : ℕ → Option ℕ) → Computes (F.post entry) column → Put place ((C.Column.meaning kind.now).image width (filter_map column (values_of self.now.cells.items chain))) output.old output.new result }
    {
        // Stays: the count; through a `zip` with the scratch's `iter_mut` a proof knows nothing of the numbers that are stored.
        let mut count = 0;
        for k in walk(&self.cells, chain) {
            if let Some(number) = entry(self.cells[k].value) {
                scratch[count] = number;
                count += 1;
            }
        }
        let size = kind
            .write(0, width, &mut scratch[..count], output, place)
            .map_err(|fault| Refusal::of_fault(fault, 0))?;
        Ok(place + size)
    }

    /// The two columns of a chain's lengths: all of them, 255 for each from there on, and then those of 255 or more; answers the place after them.
    fn write_lengths<C: Column>(
        &self,
        kind: &C,
        chain: Chain,
        scratch: &mut [u64],
        output: &mut [u8],
        place: usize,
    ) -> Result<usize, Refusal>
        requires fits { Below 64 (values_of self.now.cells.items chain) }
        requires room { length (in_chain self.now.cells.items chain) ≤ length scratch.old }
        ensures { Put place (length_bytes (C.Column.meaning kind.now) (values_of self.now.cells.items chain)) output.old output.new result }
    {
        let short = |length: u64| Some(length.min(LONG));
        let long = |length: u64| (length >= LONG).then_some(length);
        let place = self.write_column(kind, 8, chain, short, scratch, output, place)?;
        self.write_column(kind, 64, chain, long, scratch, output, place)
    }

    /// All texts of a chain, one after another; answers the place after them.
    fn write_texts(&self, chain: Chain, output: &mut [u8], place: usize) -> Result<usize, Refusal>
        requires within { Pieces self.now.cells.items self.now.text.items (in_chain self.now.cells.items chain) }
        requires place { place ≤ length output.old }
        ensures { Put place (joined (pieces_of self.now.cells.items self.now.text.items chain)) output.old output.new result }
    {
        let mut end = place;
        for k in walk(&self.cells, chain) {
            let Cell { value, start, .. } = self.cells[k];
            end = put_text(&self.text[start..start + value as usize], output, end)?;
        }
        Ok(end)
    }

    /// The columns of one node; answers the place after them.
    fn write_node<C: Column>(
        &self,
        kind: &C,
        node: Node,
        scratch: &mut [u64],
        output: &mut [u8],
        place: usize,
    ) -> Result<usize, Refusal>
        requires safe { NodeSafe self.now.cells.items self.now.text.items (length scratch.old) node }
        requires place { place ≤ length output.old }
        ensures { Put place (node_image (C.Column.meaning kind.now) self.now.cells.items self.now.text.items node) output.old output.new result }
    {
        let chain = node.cells;
        match node.mark {
            Mark::Scalar(scalar) => {
                let width = scalar.width();
                self.write_column(kind, width, chain, Some, scratch, output, place)
            }
            Mark::Enum => self.write_column(kind, 8, chain, Some, scratch, output, place),
            Mark::Seq | Mark::Map => self.write_lengths(kind, chain, scratch, output, place),
            Mark::Text => {
                let end = self.write_lengths(kind, chain, scratch, output, place)?;
                self.write_texts(chain, output, end)
            }
            Mark::Unmarked | Mark::Unit | Mark::Tuple(_) => Ok(place),
        }
    }

    /// The columns of all marked nodes; answers their length.
    pub(crate) fn write_nodes<C: Column>(
        &self,
        kind: &C,
        scratch: &mut [u64],
        output: &mut [u8],
    ) -> Result<usize, Refusal>
        requires { OutSafe (sheets self.now) (length scratch.old) }
        ensures answer { result ≡ ending (length (image_of (C.Column.meaning kind.now) (sheets self.now))) (length output.old) }
        ensures bytes { Written result 0 (image_of (C.Column.meaning kind.now) (sheets self.now)) output.old output.new }
    {
        let mut place = 0;
        // From record 1 on, each names the node that was marked next.
        for record in self.nodes.iter().skip(1).take(self.marked) {
            let node = self.nodes[record.order];
            place = self.write_node(kind, node, scratch, output, place)?;
        }
        Ok(place)
    }

    /// Writes the columns of a complete document out; answers their length.
    ///
    /// `Early` where the document is not complete, then `Scratch` where the scratch is shorter than the cells taken: neither buffer is touched.
    /// Else the whole scratch is zero afterwards, and so is the output where the columns find no room.
    pub(crate) fn write_out<C: Column>(
        &self,
        complete: bool,
        kind: &C,
        scratch: &mut [u64],
        output: &mut [u8],
    ) -> Result<usize, Refusal>
        requires { (0 < self.now.taken) × (OutSafe (sheets self.now) (self.now.taken - 1)) }
        ensures { Wrote complete (self.now.taken - 1) (image_of (C.Column.meaning kind.now) (sheets self.now)) scratch.old output.old scratch.new output.new result }
    {
        if !complete {
            return Err(Refusal::Early);
        }
        if scratch.len() < self.taken - 1 {
            return Err(Refusal::Scratch);
        }
        let answer = self.write_nodes(kind, scratch, output);
        scratch.fill(0);
        if answer.is_err() {
            output.fill(0);
        }
        answer
    }
}
