//! A card table as text: a line for each column of numbers, and one for each seat.

ghost use Rattle.columns.specs.declared.table.TheConstants.{MOST};
ghost use Rattle.std.specs.Prelude.{◌≡◌, ◌*◌, ◌≤◌, IfOk, vec_len};
ghost use Rattle.columns.specs.Numbers.{Lists};

use std::alloc::{AllocError, Global};
use std::num::ParseIntError;
use std::str::Utf8Error;
use thiserror::Error;

/// A column has at most this many values.
const MOST: usize = 64;

/// A column of the table: its name, the width of its values in bits, and the values, at most `MOST` of them.
#[derive(Drop)]
pub struct TableColumn {
    pub name: String,
    pub width: u32,
    pub values: Vec<u64>,
    ghost few: { vec_len values ≤ MOST },
}

/// What a line holds. The name at a seat is bytes, which need not be well-formed text.
#[derive(Drop)]
pub enum Entry<'a> {
    Column(TableColumn),
    Seat(&'a [u8]),
}

/// Why a line could not be read.
#[derive(Debug, Drop, Error)]
pub enum LineError {
    #[error("no memory")]
    Memory(#[from(alloc)] AllocError),
    #[error("it is not text")]
    NotText(#[from] Utf8Error),
    #[error("it has no colon")]
    NoColon,
    #[error("its name has no width")]
    NoWidth,
    #[error("a word is not a number of 64 bits")]
    NoNumber(#[from] ParseIntError),
    #[error("it has more than {most} values", most = MOST)]
    TooMany,
}

/// The numbers that a text lists, at most `MOST` of them.
pub(crate) fn numbers(alloc: Global, text: &str) -> Result<Vec<u64>, LineError>
    ensures { IfOk result (λ values. (vec_len values ≤ MOST) × Lists text.now values.items) }
{
    let mut values = Vec::new(alloc);
    for word in text.split_whitespace() {
        if values.len() >= MOST {
            return Err(LineError::TooMany);
        }
        values.push(word.parse::<u64>()?)?;
    }
    Ok(values)
}

impl TableColumn {
    /// Reads `NAME WIDTH: NUMBER NUMBER ..`.
    pub(crate) fn parse(alloc: Global, line: &str) -> Result<TableColumn, LineError> {
        let (head, body) = line.split_once(':').ok_or(LineError::NoColon)?;
        let (name, width) = head.split_once(' ').ok_or(LineError::NoWidth)?;
        Ok(TableColumn {
            name: String::from_str(alloc, name)?,
            width: width.parse::<u32>()?,
            values: numbers(alloc, body)?,
        })
    }

    /// Room for the values under any kind: none of them takes more than ten bytes.
    pub(crate) fn room(&self) -> usize
        ensures { result ≡ 10 * vec_len self.now.values }
    {
        10 * self.values.len()
    }
}

impl Entry<'_> {
    /// Reads a line: `seat: NAME`, or a column.
    pub(crate) fn parse(alloc: Global, line: &[u8]) -> Result<Entry<'_>, LineError> {
        if let Some(name) = line.strip_prefix(b"seat: ") {
            return Ok(Entry::Seat(name));
        }
        let text = str::from_utf8(line)?;
        Ok(Entry::Column(TableColumn::parse(alloc, text)?))
    }
}
