//! A node as a question finds it: its columns are read where they were not read yet.

ghost use Rattle.std.specs.Prelude.{◌≡◌, ◌<◌, vec_len};
ghost use Rattle.document.specs.Calls.{Kind};
ghost use Rattle.nodes.specs.Marks.{mark_of as mark_of_kind};
ghost use Rattle.de.specs.Moves.{sheets, node, lacks_nodes};
ghost use Rattle.de.specs.Served.{Spared};
ghost use Rattle.de.specs.Viewed.{LookSafe, Looks, viewed, views, sight};

use crate::columns::{Gain, Source};
use crate::store::Tables;
use column::interface::Column;
use document::limits::MOST_NODES;
use document::refusals::Refusal;
use nodes::marks::Mark;

/// What is heard of a node whose columns are read: how many values it has and how many were answered, where the first of them stands, and where its next text does.
#[derive(Clone, Copy)]
pub(crate) struct Sight {
    pub(crate) count: u64,
    pub(crate) done: u64,
    pub(crate) first: usize,
    pub(crate) text: usize,
}

impl Tables {
    /// Whether there are too few node records for so many more.
    pub(crate) fn lacks_nodes(&self, more: u32) -> bool
        ensures { result ≡ lacks_nodes (sheets self.now) more }
    {
        self.used.saturating_add(more as usize) > self.nodes.len().min(MOST_NODES)
    }

    /// Reads the columns of the node at the record r, as one of this kind, into slots that are not taken, and answers what that came to; none where they were read before.
    /// All else is left as it is.
    #[inline(always)]
    pub(crate) fn look<C: Column>(
        &mut self,
        source: &Source<'_, C>,
        r: usize,
        mark: Mark,
    ) -> Result<Option<Gain>, Refusal>
        requires { LookSafe source.now.input.now (sheets self.old) r }
        ensures spared { Spared (sheets self.old) (sheets self.new) }
        ensures answer { (K : Kind) → mark ≡ mark_of_kind K → Looks (C.Column.meaning source.now.kind.now) source.now.input.now (sheets self.old) self.new.slots.items r K (views (sheets self.new) r mark result) }
    {
        let known = &self.nodes[r];
        if known.mark != Mark::Unmarked {
            if !known.mark.is_kin(mark) {
                return Err(Refusal::Kind);
            }
            return Ok(None);
        }
        if self.lacks_nodes(mark.family()) {
            return Err(Refusal::Nodes);
        }
        let count = self.nodes[r].count;
        let gain = source.fetch(&mut self.slots, self.columns, mark, count, self.spot)?;
        Ok(Some(gain))
    }

    /// The node at the record r, once its columns are read, which came to this.
    #[inline(always)]
    pub(crate) fn sight(&self, r: usize, gain: Option<Gain>) -> Sight
        requires { r < vec_len self.now.nodes }
        ensures { (m : Mark) → result ≡ sight (viewed (sheets self.now) r m gain).node }
    {
        let node = &self.nodes[r];
        match gain {
            None => Sight {
                count: node.count,
                done: node.done,
                first: node.first,
                text: node.text,
            },
            Some(Gain { text, .. }) => Sight {
                count: node.count,
                done: 0,
                first: self.spot.taken,
                text,
            },
        }
    }
}
