//! Questions to a reader, each for one kind of value.

ghost use Rattle.std.specs.Prelude.{◌≡◌, ℕ, List};
ghost use Rattle.states.specs.Asking.{asks_length};
ghost use Rattle.states.specs.Documents.{number_calls};
ghost use Rattle.states.specs.Awaiting.{Reads, option_calls, length_calls, text_calls, tuple_calls, end_calls};

use crate::message::MessageError;
use column::interface::Column;
use de::reader::Reader;
use de::texts::text_at;
use document::questions::{Answer, Question};
use document::refusals::Refusal;
use document::scalars::Scalar;

// Stays: a function for each question, and not one over the question and a closure: it would require of the closure, for each answer that fits, what the arms of these matches show.

/// A number of eight bits.
pub(crate) fn number<C: Column>(reader: &mut Reader<'_, C>) -> Result<u8, MessageError>
    ensures { (input : List ℕ) → Reads C.Column.meaning input reader.old reader.new number_calls (λ y x. y ≡ x) result }
{
    match reader.ask(Question::Scalar(Scalar::U8))? {
        Answer::U8(number) => Ok(number),
        _ => unreachable(),
    }
}

/// Whether a value follows: `some`, or `none`.
pub(crate) fn is_some<C: Column>(reader: &mut Reader<'_, C>) -> Result<bool, MessageError>
    ensures { (input : List ℕ) → Reads C.Column.meaning input reader.old reader.new option_calls (λ y x. y ≡ x) result }
{
    match reader.ask(Question::Option)? {
        Answer::Some => Ok(true),
        Answer::None => Ok(false),
        _ => unreachable(),
    }
}

/// What is counted: the elements of a list, or the pairs of a map.
// Stays: a name for each of two questions that differ in their case alone; a flag or a closure would say less.
#[derive(Clone, Copy)]
pub(crate) enum Items {
    Elements,
    Pairs,
}

impl Items {
    /// The question for their number.
    fn question(self) -> Question
        ensures { result ≡ asks_length self }
    {
        match self {
            Items::Elements => Question::Seq { no_size: false },
            Items::Pairs => Question::Map { no_size: false },
        }
    }
}

/// The number of a list's elements, or of a map's pairs.
pub(crate) fn length<C: Column>(
    reader: &mut Reader<'_, C>,
    items: Items,
) -> Result<u64, MessageError>
    ensures { (input : List ℕ) → Reads C.Column.meaning input reader.old reader.new (length_calls items) (λ y x. y ≡ x) result }
{
    let answer = reader.ask(items.question())?;
    match items {
        Items::Elements => match answer {
            Answer::Seq(length) => Ok(length),
            _ => unreachable(),
        },
        Items::Pairs => match answer {
            Answer::Map(length) => Ok(length),
            _ => unreachable(),
        },
    }
}

/// A text, handed out of the reader's input.
pub(crate) fn text<'a, C: Column>(
    reader: &mut Reader<'_, C>,
    input: &'a [u8],
) -> Result<&'a [u8], MessageError>
    ensures { Reads C.Column.meaning input.now reader.old reader.new text_calls (λ y x. y.now ≡ x) result }
{
    match reader.ask(Question::Text)? {
        Answer::Text { place, length } => Ok(text_at(input, place, length)?),
        _ => unreachable(),
    }
}

/// The beginning of a tuple of so many values.
pub(crate) fn tuple<C: Column>(reader: &mut Reader<'_, C>, length: u32) -> Result<(), MessageError>
    ensures { (input : List ℕ) → Reads C.Column.meaning input reader.old reader.new (tuple_calls length) (λ y x. y ≡ x) result }
{
    reader.ask(Question::Tuple(length))?;
    Ok(())
}

/// The end of a list, a map or a tuple.
pub(crate) fn end<C: Column>(reader: &mut Reader<'_, C>) -> Result<(), MessageError>
    ensures { (input : List ℕ) → Reads C.Column.meaning input reader.old reader.new end_calls (λ y x. y ≡ x) result }
{
    reader.ask(Question::End)?;
    Ok(())
}

/// Questions in turn, up to the first that is refused.
pub(crate) fn ask_each<C: Column>(
    reader: &mut Reader<'_, C>,
    questions: &[Question],
) -> Result<(), Refusal> {
    questions
        .iter()
        .try_for_each(|question| reader.ask(*question).map(|_| ()))
}
