//! A new reader's tables and places.

ghost use Rattle.std.specs.Prelude.{◌≡◌, ℕ, List, vec_len};
ghost use Rattle.document.specs.Reader.{begin};
ghost use Rattle.nodes.specs.Children.{rooted};
ghost use Rattle.de.specs.Moves.{root_node};
ghost use Rattle.de.specs.Standing.{Stands};

use super::Desk;
use crate::columns::Spot;
use crate::records::Node;
use crate::store::Tables;
use nodes::children::rooted;
use nodes::places::Places;

impl Desk {
    /// A desk over these tables, with nothing read; but for the root's record they stay.
    pub(crate) fn start(nodes: Vec<Node>, slots: Vec<u64>) -> Desk
        ensures stands { (input : List ℕ) → Stands result input (begin (vec_len nodes) (vec_len slots) input) }
        ensures nodes { result.tables.nodes.items ≡ rooted nodes.items root_node }
        ensures slots { result.tables.slots ≡ slots }
    {
        let taken = slots.len().min(1);
        let tables = Tables {
            nodes: rooted(nodes, Node::unread(0, 1)),
            slots,
            used: 2,
            spot: Spot { taken, place: 0 },
            columns: 0,
        };
        Desk {
            tables,
            places: Places::start(),
        }
    }
}
