//! What was answered, added up.

ghost use Rattle.std.specs.Prelude.{◌≡◌, ◌+◌, ◌%◌, ◌^◌};
ghost use Rattle.bench.specs.Tallies.{amount, last_of};

use document::questions::Answer;
use std::fmt;

/// What an answer counts: a number by its bits, an index, a length.
fn amount(answer: Answer) -> u64
    ensures { result ≡ amount answer }
{
    match answer {
        Answer::Bool(b) => u64::from(b),
        Answer::U8(n) => u64::from(n),
        Answer::U16(n) => u64::from(n),
        Answer::U32(n) | Answer::F32(n) | Answer::Variant(n) => u64::from(n),
        Answer::U64(n) | Answer::Seq(n) | Answer::Map(n) => n,
        Answer::I8(z) => u64::from(z.cast_unsigned()),
        Answer::I16(z) => u64::from(z.cast_unsigned()),
        Answer::I32(z) => u64::from(z.cast_unsigned()),
        Answer::I64(z) => z.cast_unsigned(),
        Answer::Text { length, .. } => length as u64,
        Answer::Some => 1,
        Answer::Unit | Answer::None | Answer::Tuple | Answer::End => 0,
    }
}

/// The sum of all answers, and that of the last bytes of the texts.
#[derive(Clone, Copy, Default)]
pub(crate) struct Tally {
    pub(crate) answers: u64,
    pub(crate) texts: u64,
}

impl Tally {
    /// With an answer added.
    pub(crate) fn with(self, answer: Answer) -> Tally
        ensures answers { result.answers ≡ (self.answers + amount answer) % 2 ^ 64 }
        ensures texts { result.texts ≡ self.texts }
    {
        Tally {
            answers: self.answers.wrapping_add(amount(answer)),
            ..self
        }
    }

    /// With a text's last byte added.
    pub(crate) fn with_text(self, text: &[u8]) -> Tally
        ensures answers { result.answers ≡ self.answers }
        ensures texts { result.texts ≡ (self.texts + last_of text.now) % 2 ^ 64 }
    {
        let last = text.last().copied().unwrap_or(0);
        Tally {
            texts: self.texts.wrapping_add(u64::from(last)),
            ..self
        }
    }
}

impl fmt::Display for Tally {
    fn fmt<W: fmt::Write>(&self, f: &mut fmt::Formatter<W>) -> fmt::Result {
        let Tally { answers, texts } = self;
        write!(
            f,
            "answers add up to {answers}, the texts' last bytes to {texts}"
        )
    }
}
