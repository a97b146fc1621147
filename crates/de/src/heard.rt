//! Questions and answers by themselves.

ghost use Rattle.std.specs.Prelude.{◌≡◌, ◌&&◌, nat_lt, if◌then◌else◌};
ghost use Rattle.document.specs.Calls.{Cell};
ghost use Rattle.document.specs.Reader.{Ask, worth_of};
ghost use Rattle.de.specs.Answered.{question_of, Worthy};
ghost use Rattle.de.specs.Asked.{marking, branching, opens_place, opens_any, Sized, letters_of, Fitting};

use document::limits::MOST_WITHOUT_SIZE;
use document::numbers::Number;
use document::questions::{Answer, Question};
use document::refusals::Refusal;
use nodes::marks::Mark;
use nodes::places::State;

/// What a question heard: the answer, and the place that the value opens.
#[derive(Clone, Copy)]
pub(crate) struct Heard {
    pub(crate) answer: Answer,
    pub(crate) opened: Option<State>,
}

impl Heard {
    /// An answer that opens no place.
    pub(crate) fn shut(answer: Answer) -> Heard
        ensures { result ≡ record { answer = answer; opened = None } }
    {
        Heard {
            answer,
            opened: None,
        }
    }
}

/// The kind that a question asks for; `unit` and `end` ask nothing of a node.
// Stays: from here on beside the writer's functions of these names, since questions and answers are other types than calls.
#[inline(always)]
pub(crate) fn mark_of(question: Question) -> Mark
    ensures { result ≡ marking question }
{
    match question {
        Question::Scalar(kind) => Mark::Scalar(kind),
        Question::Text => Mark::Text,
        Question::Option | Question::Variant => Mark::Enum,
        Question::Seq { .. } => Mark::Seq,
        Question::Map { .. } => Mark::Map,
        Question::Tuple(n) => Mark::Tuple(n),
        Question::Unit | Question::End => Mark::Unmarked,
    }
}

/// Whether a question opens a place whatever the answer.
#[inline(never)]
pub(crate) fn opens_any(question: Question) -> bool
    ensures { result ≡ opens_any question }
{
    matches!(
        question,
        Question::Variant | Question::Seq { .. } | Question::Map { .. } | Question::Tuple(_)
    )
}

/// Whether an answer opens a place.
#[inline(always)]
pub(crate) fn opens_place(answer: Answer) -> bool
    ensures { result ≡ opens_place answer }
{
    matches!(
        answer,
        Answer::Some | Answer::Variant(_) | Answer::Seq(_) | Answer::Map(_) | Answer::Tuple
    )
}

/// The index whose child the value that follows stands at.
#[inline(always)]
pub(crate) fn index_of(answer: Answer) -> Option<u32>
    ensures { result ≡ branching answer }
{
    match answer {
        Answer::Some => Some(1),
        Answer::Variant(i) => Some(i),
        _ => None,
    }
}

/// The number of bytes of a text, 0 of any other answer.
#[inline(always)]
pub(crate) fn letters_of(answer: Answer) -> usize
    ensures { result ≡ letters_of answer }
{
    match answer {
        Answer::Text { length, .. } => length,
        _ => 0,
    }
}

/// A length, refused where it is flagged and too great.
fn sized(length: u64, no_size: bool) -> Result<u64, Refusal>
    ensures { result ≡ (if no_size && nat_lt 65536 length then Err Refusal.NoSize else Ok length) }
{
    if no_size && length > MOST_WITHOUT_SIZE {
        return Err(Refusal::NoSize);
    }
    Ok(length)
}

/// What a number in the slots is worth to a question; `place` is where the node's next text stands.
#[inline(always)]
pub(crate) fn worth(question: Question, number: u64, place: usize) -> Result<Answer, Refusal>
    requires { Fitting question number }
    ensures { (a : Ask) (c : Cell) → question ≡ question_of a → Sized a c number → Worthy (worth_of a c) place result }
{
    match question {
        Question::Scalar(kind) => Ok(Number { kind, bits: number }.into()),
        Question::Text => Ok(Answer::Text {
            place,
            length: number as usize,
        }),
        Question::Option => match number {
            0 => Ok(Answer::None),
            1 => Ok(Answer::Some),
            _ => Err(Refusal::Option),
        },
        Question::Variant => Ok(Answer::Variant(number as u32)),
        Question::Seq { no_size } => Ok(Answer::Seq(sized(number, no_size)?)),
        Question::Map { no_size } => Ok(Answer::Map(sized(number, no_size)?)),
        Question::Tuple(_) => Ok(Answer::Tuple),
        Question::Unit => Ok(Answer::Unit),
        Question::End => Ok(Answer::End),
    }
}
