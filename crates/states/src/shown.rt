//! How states and answers are printed.

use crate::asking::ask_each;
use crate::state::{Grant, Seat};
use column::interface::Column;
use de::reader::Reader;
use de::reader::questions::Parts;
use document::questions::Question;
use std::{fmt, io};

/// A number of bytes, in words.
#[derive(Clone, Copy)]
pub struct Size(pub usize);

impl fmt::Display for Size {
    fn fmt<W: fmt::Write>(&self, f: &mut fmt::Formatter<W>) -> fmt::Result {
        let size = self.0;
        match size {
            1 => write!(f, "1 byte"),
            _ => write!(f, "{size} bytes"),
        }
    }
}

impl fmt::Display for Grant {
    fn fmt<W: fmt::Write>(&self, f: &mut fmt::Formatter<W>) -> fmt::Result {
        let card = self.card;
        match self.seat {
            Some(seat) => write!(f, "{card} looks into the hand of seat {seat}"),
            None => write!(f, "{card} is discarded"),
        }
    }
}

impl fmt::Display for Seat<'_> {
    fn fmt<W: fmt::Write>(&self, f: &mut fmt::Formatter<W>) -> fmt::Result {
        let name = self.name;
        write!(f, "{name}, cards")?;
        for card in self.cards {
            write!(f, " {card}")?;
        }
        for grant in self.grants {
            write!(f, "; {grant}")?;
        }
        Ok(())
    }
}

/// Prints what was answered, a refusal or another fault in its words.
pub(crate) fn show_answer<T: fmt::Display + Drop, E: fmt::Display + Drop>(
    rt: &HostRuntime,
    title: T,
    answer: Result<(), E>,
) -> io::Result<()> {
    match answer {
        Ok(()) => println!(rt; "  {title}: accepted"),
        Err(error) => println!(rt; "  {title}: {error}"),
    }
}

/// Asks a new reader of this input, and prints what was answered.
pub(crate) fn show_questions<T: fmt::Display + Drop, C: Column>(
    rt: &HostRuntime,
    title: T,
    kind: &C,
    input: &[u8],
    questions: &[Question],
    tables: Parts,
) -> io::Result<Parts> {
    let Parts { nodes, slots } = tables;
    let mut reader = Reader::new(kind, input, nodes, slots);
    show_answer(rt, title, ask_each(&mut reader, questions))?;
    Ok(reader.into_tables())
}
