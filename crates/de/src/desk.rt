//! The tables and the open places of a reader.

use crate::store::Tables;
use nodes::places::Places;

/// A reader's tables, and its open places.
// Stays: a struct for the writer and one for the reader, since each has methods, which only its own crate can give it.
#[derive(Drop)]
pub(crate) struct Desk {
    pub(crate) tables: Tables,
    pub(crate) places: Places,
}

mod start;
mod step;
