//! Questions, and what the crates answer.

ghost use Rattle.std.specs.Prelude.{◌≡◌, ℕ, IfOk, vec_len};
ghost use Rattle.column.specs.Parsed.{told, values_of};
ghost use Rattle.column.specs.Interface.{writing, reading};
ghost use Rattle.cases.specs.Kinds.{meaning_of};
ghost use Rattle.cases.specs.Answers.{Wrote, Heard, Answered};

use crate::answer::{Answer, Reading};
use crate::digest::Digest;
use crate::kind::Kind;
use crate::strings::StringSet;
use crate::words::Words;
use anyhow::anyhow;
use column::fault::Fault;
use column::interface::Column;
use std::alloc::{AllocError, Global};

/// Outputs hold this byte before a write.
const FILL: u8 = 0xa5;

/// Which kind is called, at which layer and width.
#[derive(Clone, Copy)]
pub struct Call {
    kind: Kind,
    layer: u16,
    width: u32,
}

/// A question to the crates.
#[derive(Drop)]
pub enum Question {
    /// A write of these values into so much room.
    Write {
        call: Call,
        values: Vec<u64>,
        room: usize,
        place: usize,
    },
    /// A read of so many values.
    Read {
        call: Call,
        count: usize,
        input: Vec<u8>,
        place: usize,
    },
    /// Whether this is text.
    Text {
        input: Vec<u8>,
    },
    /// A read of so many values from each string of a set.
    Reads {
        kind: Kind,
        width: u32,
        count: usize,
        set: StringSet,
    },
    /// Whether each string of a set is text.
    Texts {
        set: StringSet,
    },
}

impl Question {
    /// The question that a line asks.
    pub(crate) fn parse(alloc: Global, line: &str) -> anyhow::Result<Question> {
        let mut words = Words::of(line);
        match words.word()? {
            "write" => Ok(Question::Write {
                call: Call::parse(&mut words)?,
                values: words.values(alloc)?,
                room: words.parsed()?,
                place: words.parsed()?,
            }),
            "read" => Ok(Question::Read {
                call: Call::parse(&mut words)?,
                count: words.parsed()?,
                input: words.bytes(alloc)?,
                place: words.parsed()?,
            }),
            "text" => Ok(Question::Text {
                input: words.bytes(alloc)?,
            }),
            "reads" => Ok(Question::Reads {
                kind: words.parsed()?,
                width: words.narrowed()?,
                count: words.parsed()?,
                set: words.set()?,
            }),
            "texts" => Ok(Question::Texts { set: words.set()? }),
            _ => Err(anyhow!("an unknown question")),
        }
    }

    /// What the crates answer.
    pub(crate) fn answer(self, alloc: Global) -> Result<Answer, AllocError>
        ensures { IfOk result (λ a. Answered self a) }
    {
        match self {
            Question::Write {
                call,
                mut values,
                room,
                place,
            } => Ok(call.write(&mut values, vec![in alloc; FILL; room]?, place)),
            Question::Read {
                call,
                count,
                input,
                place,
            } => Ok(Answer::Read(call.read(vec![in alloc; 0; count]?, &input, place))),
            Question::Text { input } => Ok(Answer::Judged {
                formed: utf8::well_formed(&input).is_ok(),
            }),
            Question::Reads {
                kind,
                width,
                count,
                set,
            } => Ok(Answer::Digest(reads(alloc, kind, width, count, set)?)),
            Question::Texts { set } => Ok(Answer::Digest(texts(set))),
        }
    }
}

impl Call {
    fn parse(words: &mut Words<'_>) -> anyhow::Result<Call> {
        Ok(Call {
            kind: words.parsed()?,
            layer: words.narrowed()?,
            width: words.narrowed()?,
        })
    }

    /// Writes the values at a place of the output.
    fn write(self, values: &mut [u64], mut output: Vec<u8>, place: usize) -> Answer
        ensures { Wrote result (writing (meaning_of self.kind) self.layer self.width values.old (vec_len output) place) place ((meaning_of self.kind).image self.width values.old) output.items }
    {
        let result = self
            .kind
            .write(self.layer, self.width, values, &mut output, place);
        if result.is_err() {
            output.truncate(place);
        }
        Answer::Write { result, output }
    }

    /// Reads values at a place of the input.
    fn read(self, mut values: Vec<u64>, input: &[u8], place: usize) -> Result<Reading, Fault>
        ensures { Heard (Answer.Read result) (told self.layer (reading (meaning_of self.kind) self.width (vec_len values) input.now place)) (values_of (reading (meaning_of self.kind) self.width (vec_len values) input.now place)) }
    {
        let used = self
            .kind
            .read(self.layer, self.width, &mut values, input, place)?;
        Ok(Reading { used, values })
    }
}

/// The digest of a read of so many values from each string of a set.
fn reads(
    alloc: Global,
    kind: Kind,
    width: u32,
    count: usize,
    set: StringSet,
) -> Result<Digest, AllocError> {
    let mut values = vec![in alloc; 0; count]?;
    let mut digest = Digest::new();
    set.each(|string| {
        let answer = kind.read(0, width, &mut values, string, 0);
        digest.read(answer, &values);
    });
    Ok(digest)
}

/// The digest of whether each string of a set is text.
fn texts(set: StringSet) -> Digest {
    let mut digest = Digest::new();
    set.each(|string| digest.byte(u8::from(utf8::well_formed(string).is_ok())));
    digest
}
