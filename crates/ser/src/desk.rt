//! The tables and the open places of a writer.

use crate::store::Tables;
use nodes::places::Places;

/// A writer's tables, and its open places.
// Stays: a struct for the writer and one for the reader, since each has methods, which only its own crate can give it.
#[derive(Drop)]
pub(crate) struct Desk {
    pub(crate) tables: Tables,
    pub(crate) places: Places,
}

mod step;
