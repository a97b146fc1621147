//! The limits of the format, which a writer and a reader share.

/// At most so many records are in use in a node table, record 0 among them.
pub const MOST_NODES: usize = 65_536;

/// At most so many cells of a writer, or slots of a reader, are in use, number 0 among them.
pub const MOST_CELLS: usize = 1_048_576;

/// At most so many bytes of a writer's text table are in use.
pub const MOST_TEXT: usize = 16_777_216;

/// The sum of a node's lengths stays below this.
pub const LIMIT: u64 = 2_251_799_813_685_247;

/// A length from here on stands in the second column of lengths, and takes a second cell.
pub const LONG: u64 = 255;

/// The greatest index of a variant.
pub const LAST_INDEX: u32 = 255;

/// The greatest length of elements or keys that take no memory.
pub const MOST_WITHOUT_SIZE: u64 = 65_536;
