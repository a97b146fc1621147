//! Answers, and their text in the data files.

use crate::digest::Digest;
use column::fault::{Cause, Fault};
use std::fmt;

/// What an accepted read gave: how many bytes it took, and the values.
#[derive(Drop)]
pub struct Reading {
    pub used: usize,
    pub values: Vec<u64>,
}

/// What a question was answered.
#[derive(Drop)]
pub enum Answer {
    /// A write: accepted, with the whole output; refused, with its bytes before the place.
    Write {
        result: Result<usize, Fault>,
        output: Vec<u8>,
    },
    /// A read.
    Read(Result<Reading, Fault>),
    /// Whether text is well-formed.
    Judged {
        formed: bool,
    },
    /// The digest of many answers.
    Digest(Digest),
}

impl fmt::Display for Answer {
    fn fmt<W: fmt::Write>(&self, f: &mut fmt::Formatter<W>) -> fmt::Result {
        match self {
            Answer::Write { result, output } => {
                match result {
                    Ok(used) => write!(f, "ok {used} ")?,
                    Err(fault) => {
                        show_fault(f, *fault)?;
                        write!(f, " ")?;
                    }
                }
                show_bytes(f, output)
            }
            Answer::Read(Ok(Reading { used, values })) => {
                write!(f, "ok {used} ")?;
                show_values(f, values)
            }
            Answer::Read(Err(fault)) => show_fault(f, *fault),
            Answer::Judged { formed } => write!(f, "{}", if *formed { "yes" } else { "no" }),
            Answer::Digest(Digest { state }) => write!(f, "{state:016x}"),
        }
    }
}

/// A cause's word, and the layer.
fn show_fault<W: fmt::Write>(f: &mut fmt::Formatter<W>, fault: Fault) -> fmt::Result {
    let Fault { cause, layer } = fault;
    let word = match cause {
        Cause::Room => "room",
        Cause::Short => "short",
        Cause::Bad => "bad",
    };
    write!(f, "{word} {layer}")
}

/// Two digits for each byte, or '-' for none.
fn show_bytes<W: fmt::Write>(f: &mut fmt::Formatter<W>, bytes: &[u8]) -> fmt::Result {
    if bytes.is_empty() {
        return write!(f, "-");
    }
    for byte in bytes {
        write!(f, "{byte:02x}")?;
    }
    Ok(())
}

/// The values with commas, or '-' for none.
fn show_values<W: fmt::Write>(f: &mut fmt::Formatter<W>, values: &[u64]) -> fmt::Result {
    let [first, others @ ..] = values else {
        return write!(f, "-");
    };
    write!(f, "{first}")?;
    for value in others {
        write!(f, ",{value}")?;
    }
    Ok(())
}
