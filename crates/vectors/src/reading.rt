//! A list of questions, asked of the reader.

use crate::calls::Told;
use crate::expected::Read;
use crate::walk::{open_places, records_of_questions};
use column::flat::Flat;
use de::reader::Reader;
use de::reader::questions::Parts;
use document::questions::Question;
use document::refusals::Refusal;
use replay::says::says;
use std::alloc::{AllocError, Global};
use std::fmt;

/// What the questions and answers up to a refused question tell of the refusal.
#[derive(Clone, Copy)]
pub struct Grounds {
    /// How many places were open.
    pub places: usize,
    /// The most node records that the questions up to this one can take.
    pub records: u64,
    /// The length of the input.
    pub input: usize,
}

/// What came after the answers that are those of the reference.
#[derive(Clone, Copy)]
pub enum Next {
    /// Another answer than the reference's.
    Other,
    /// An answer where the reference has none.
    Answer,
    Refused { refusal: Refusal, grounds: Grounds },
    /// No question is left, and finish answered this.
    Finish(Result<(), Refusal>),
}

/// What the reader answered: so many answers of the reference, and then this.
#[derive(Clone, Copy)]
pub struct Heard {
    pub count: usize,
    pub next: Next,
}

impl fmt::Display for Heard {
    fn fmt<W: fmt::Write>(&self, f: &mut fmt::Formatter<W>) -> fmt::Result {
        let Heard { count, next } = self;
        write!(f, "question {count}: ")?;
        match next {
            Next::Other => write!(f, "another answer"),
            Next::Answer => write!(f, "an answer"),
            Next::Refused { refusal, .. } => write!(f, "{refusal}"),
            Next::Finish(Ok(())) => write!(f, "finish accepted"),
            Next::Finish(Err(refusal)) => write!(f, "finish: {refusal}"),
        }
    }
}

/// A question's refusal, and what is told of it.
fn refused(
    alloc: Global,
    input: &[u8],
    questions: &[Question],
    values: &[Told],
    count: usize,
    refusal: Refusal,
) -> Result<Heard, AllocError> {
    let grounds = Grounds {
        places: open_places(alloc, values.get(..count).unwrap_or(values))?,
        records: records_of_questions(questions.get(..=count).unwrap_or(questions)),
        input: input.len(),
    };
    let next = Next::Refused { refusal, grounds };
    Ok(Heard { count, next })
}

/// Asks the questions up to the first whose answer is not the reference's, and one more, or finishes.
fn listen(
    alloc: Global,
    reader: &mut Reader<'_, Flat>,
    input: &[u8],
    questions: &[Question],
    values: &[Told],
) -> Result<Heard, AllocError> {
    for (count, question) in questions.iter().enumerate() {
        match (reader.ask(*question), values.get(count)) {
            (Err(refusal), _) => {
                return refused(alloc, input, questions, values, count, refusal);
            }
            (Ok(_), None) => {
                let next = Next::Answer;
                return Ok(Heard { count, next });
            }
            (Ok(answer), Some(value)) => {
                if !says(answer, value.call(), input) {
                    let next = Next::Other;
                    return Ok(Heard { count, next });
                }
            }
        }
    }
    Ok(Heard {
        count: questions.len(),
        next: Next::Finish(reader.finish()),
    })
}

/// Asks one new reader of the input the questions, beside the answers of the reference.
pub(crate) fn read(
    alloc: Global,
    input: &[u8],
    questions: &[Question],
    expected: &Read,
    tables: Parts,
) -> Result<(Heard, Parts), AllocError> {
    let Parts { nodes, slots } = tables;
    let mut reader = Reader::new(&Flat, input, nodes, slots);
    let heard = listen(alloc, &mut reader, input, questions, &expected.values)?;
    Ok((heard, reader.into_tables()))
}
