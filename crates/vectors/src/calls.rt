//! Calls and questions, as the lines of a data file have them.

ghost use Rattle.std.specs.Prelude.{◌≡◌, IfOk, false};
ghost use Rattle.document.specs.declared.questions.Question.TheVariants as questions;
ghost use Rattle.document.specs.Said.{said, asked};
ghost use Rattle.vectors.specs.Spoken.{said_by, flag_of, Spells, SpellsBytes, SpellsTold, IsWordOf};

use anyhow::{anyhow, bail};
use document::calls::Call;
use document::questions::Question;
use document::scalars::Scalar;
use std::alloc::Global;

/// A call that owns its text.
#[derive(Drop)]
pub enum Told {
    Plain(Call<'static>),
    Text(Vec<u8>),
}

impl Told {
    /// The call of an item, as `u8 7` or `end`.
    pub(crate) fn parse(alloc: Global, item: &str) -> anyhow::Result<Told> {
        let (word, value) = item.split_once(' ').unwrap_or((item, ""));
        match word {
            "none" => Ok(Told::Plain(Call::None)),
            "some" => Ok(Told::Plain(Call::Some)),
            "tuple" => Ok(Told::Plain(Call::Tuple(value.parse::<u32>()?))),
            _ => Told::valued(alloc, question(word)?, value),
        }
    }

    /// The call that a question asks for and whose value this is.
    pub(crate) fn valued(alloc: Global, question: Question, value: &str) -> anyhow::Result<Told>
        ensures question { IfOk result (λ told. asked (flag_of question) (said_by told) ≡ question) }
        ensures value { IfOk result (λ told. SpellsTold told value.now) }
    {
        match question {
            Question::Scalar(kind) => Ok(Told::Plain(number(kind, value)?)),
            Question::Text => Ok(Told::Text(bytes(alloc, value)?)),
            Question::Variant => Ok(Told::Plain(Call::Variant(value.parse::<u32>()?))),
            Question::Seq { .. } => Ok(Told::Plain(Call::Seq(value.parse::<u64>()?))),
            Question::Map { .. } => Ok(Told::Plain(Call::Map(value.parse::<u64>()?))),
            Question::Tuple(n) => Ok(Told::Plain(Call::Tuple(n))),
            Question::Unit => Ok(Told::Plain(Call::Unit)),
            Question::End => Ok(Told::Plain(Call::End)),
            Question::Option => match value {
                "none" => Ok(Told::Plain(Call::None)),
                "some" => Ok(Told::Plain(Call::Some)),
                _ => Err(anyhow!("neither none nor some")),
            },
        }
    }

    /// The call.
    pub(crate) fn call(&self) -> Call<'_>
        ensures { said result ≡ said_by self.now }
    {
        match self {
            Told::Plain(call) => *call,
            Told::Text(text) => Call::Text(text),
        }
    }
}

/// The call of a number of this kind.
fn number(kind: Scalar, value: &str) -> anyhow::Result<Call<'static>>
    ensures kind { IfOk result (λ call. asked false (said call) ≡ questions.Scalar kind) }
    ensures value { IfOk result (λ call. Spells call value.now) }
{
    Ok(match kind {
        Scalar::Bool => match value {
            "0" => Call::Bool(false),
            "1" => Call::Bool(true),
            _ => bail!("a bit is 0 or 1"),
        },
        Scalar::U8 => Call::U8(value.parse::<u8>()?),
        Scalar::U16 => Call::U16(value.parse::<u16>()?),
        Scalar::U32 => Call::U32(value.parse::<u32>()?),
        Scalar::U64 => Call::U64(value.parse::<u64>()?),
        Scalar::I8 => Call::I8(value.parse::<i8>()?),
        Scalar::I16 => Call::I16(value.parse::<i16>()?),
        Scalar::I32 => Call::I32(value.parse::<i32>()?),
        Scalar::I64 => Call::I64(value.parse::<i64>()?),
        Scalar::F32 => Call::F32(value.parse::<u32>()?),
    })
}

/// The question of an item, as `u8`, `seq!` or `tuple 2`.
pub(crate) fn question(item: &str) -> anyhow::Result<Question>
    ensures { IfOk result (λ q. IsWordOf item.now q) }
{
    Ok(match item {
        "bool" => Question::Scalar(Scalar::Bool),
        "u8" => Question::Scalar(Scalar::U8),
        "u16" => Question::Scalar(Scalar::U16),
        "u32" => Question::Scalar(Scalar::U32),
        "u64" => Question::Scalar(Scalar::U64),
        "i8" => Question::Scalar(Scalar::I8),
        "i16" => Question::Scalar(Scalar::I16),
        "i32" => Question::Scalar(Scalar::I32),
        "i64" => Question::Scalar(Scalar::I64),
        "f32" => Question::Scalar(Scalar::F32),
        "text" => Question::Text,
        "unit" => Question::Unit,
        "option" => Question::Option,
        "variant" => Question::Variant,
        "seq" => Question::Seq { no_size: false },
        "seq!" => Question::Seq { no_size: true },
        "map" => Question::Map { no_size: false },
        "map!" => Question::Map { no_size: true },
        "end" => Question::End,
        _ => match item.split_once(' ') {
            Some(("tuple", n)) => Question::Tuple(n.parse::<u32>()?),
            _ => bail!("no question"),
        },
    })
}

/// Bytes of two digits each, or '-' for none.
pub(crate) fn bytes(alloc: Global, digits: &str) -> anyhow::Result<Vec<u8>>
    ensures { IfOk result (λ bytes. SpellsBytes bytes.items digits.now) }
{
    if digits == "-" {
        return Ok(Vec::new(alloc));
    }
    Ok(hex::decode(alloc, digits)?)
}

/// The calls of a list whose items have ';' between.
pub(crate) fn calls(alloc: Global, list: &str) -> anyhow::Result<Vec<Told>> {
    list.split(';')
        .map(|item| Told::parse(alloc, item))
        .try_collect(alloc)
}

/// The questions of a list whose items have ';' between.
pub(crate) fn questions(alloc: Global, list: &str) -> anyhow::Result<Vec<Question>> {
    list.split(';').map(question).try_collect(alloc)
}
