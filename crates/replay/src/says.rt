//! Whether an answer is a call's value.

ghost use Rattle.std.specs.Prelude.{Decides};
ghost use Rattle.document.specs.Numbers.{Is};
ghost use Rattle.document.specs.Said.{said};
ghost use Rattle.replay.specs.Says.{Says, Names};

use de::texts::text_at;
use document::calls::Call;
use document::numbers::Number;
use document::questions::Answer;

/// Whether an answer is the number.
fn says_number(answer: Answer, number: Number) -> bool
    ensures { Decides result (Is answer number.kind number.bits) }
{
    answer.number() == Some(number)
}

/// Whether an answer names the text in the input.
fn says_text(answer: Answer, text: &[u8], input: &[u8]) -> bool
    ensures { Decides result (Names answer text.now input.now) }
{
    match answer {
        Answer::Text { place, length } => {
            text_at(input, place, length).is_ok_and(|part| part == text)
        }
        _ => false,
    }
}

/// Whether an answer is the call's value: of a text, whether the part of the input that it names is the text.
pub fn says(answer: Answer, call: Call<'_>, input: &[u8]) -> bool
    ensures { Decides result (Says answer (said call.entry) input.now) }
{
    if let Some(number) = call.number() {
        return says_number(answer, number);
    }
    match call {
        Call::Text(text) => says_text(answer, text, input),
        Call::Unit => answer == Answer::Unit,
        Call::None => answer == Answer::None,
        Call::Some => answer == Answer::Some,
        Call::Variant(i) => answer == Answer::Variant(i),
        Call::Seq(n) => answer == Answer::Seq(n),
        Call::Map(n) => answer == Answer::Map(n),
        Call::Tuple(_) => answer == Answer::Tuple,
        _ => answer == Answer::End,
    }
}
