//! The words of a line.

ghost use Rattle.std.specs.Prelude.{◌≡◌, ◌<◌, IfOk, Some, None, MatchResult};
ghost use Rattle.cases.specs.Words.{digit_of};

use crate::strings::StringSet;
use anyhow::anyhow;
use std::alloc::{AllocError, Global};
use std::error::Error;
use std::fmt;
use std::str::FromStr;

/// What is left of a line.
#[derive(Drop)]
pub struct Words<'a> {
    rest: &'a str,
}

impl<'a> Words<'a> {
    pub(crate) fn of(line: &'a str) -> Words<'a> {
        Words { rest: line }
    }

    /// The next word, up to a space.
    pub(crate) fn word(&mut self) -> anyhow::Result<&'a str> {
        if self.rest.is_empty() {
            return Err(anyhow!("a word is missing"));
        }
        let (word, rest) = self.rest.split_once(' ').unwrap_or((self.rest, ""));
        self.rest = rest;
        Ok(word)
    }

    /// The next word, as the number or the name that is wanted.
    pub(crate) fn parsed<T: FromStr>(&mut self) -> anyhow::Result<T>
    where
        anyhow::Error: From<T::Err>,
    {
        Ok(self.word()?.parse::<T>()?)
    }

    /// The next word, as a number that is refused by its size where the type has no room for it.
    pub(crate) fn narrowed<T: TryFrom<u64>>(&mut self) -> anyhow::Result<T>
    where
        anyhow::Error: From<T::Error>,
    {
        Ok(T::try_from(self.parsed::<u64>()?)?)
    }

    /// Values with commas, or '-' for none.
    pub(crate) fn values(&mut self, alloc: Global) -> anyhow::Result<Vec<u64>> {
        match self.word()? {
            "-" => Ok(Vec::new(alloc)),
            values => values
                .split(',')
                .map(|value| -> anyhow::Result<u64> { Ok(value.parse::<u64>()?) })
                .try_collect(alloc),
        }
    }

    /// Bytes of two digits each, or '-' for none.
    pub(crate) fn bytes(&mut self, alloc: Global) -> anyhow::Result<Vec<u8>> {
        match self.word()? {
            "-" => Ok(Vec::new(alloc)),
            bytes => Ok(bytes.as_bytes().chunks(2).map(byte).try_collect(alloc)?),
        }
    }

    pub(crate) fn set(&mut self) -> anyhow::Result<StringSet> {
        match self.word()? {
            "few" => Ok(StringSet::Few),
            "pairs" => Ok(StringSet::Pairs(byte(self.word()?.as_bytes())?)),
            "edges" => Ok(StringSet::Edges(byte(self.word()?.as_bytes())?)),
            _ => Err(anyhow!("an unknown set of strings")),
        }
    }
}

/// Why a word writes no bytes.
#[derive(Clone, Copy, Debug)]
enum BytesError {
    /// A byte has fewer digits than two, or more.
    Length,
    /// A letter is no digit.
    Digit,
    /// No memory is left for the bytes.
    Memory(AllocError),
}

impl fmt::Display for BytesError {
    fn fmt<W: fmt::Write>(&self, f: &mut fmt::Formatter<W>) -> fmt::Result {
        match self {
            BytesError::Length => write!(f, "a byte has two digits"),
            BytesError::Digit => write!(f, "no hexadecimal digit"),
            BytesError::Memory(error) => write!(f, "{error}"),
        }
    }
}

impl Error for BytesError {}

impl From<AllocError> for BytesError {
    fn from(error: AllocError) -> BytesError {
        BytesError::Memory(error)
    }
}

/// The byte that two digits write.
fn byte(digits: &[u8]) -> Result<u8, BytesError> {
    let [high, low] = digits else {
        return Err(BytesError::Length);
    };
    Ok(digit(*high)? * 16 + digit(*low)?)
}

/// The value of a hexadecimal digit.
// Stays: the library's conversions, as `to_digit` and `from_str_radix`, take capital letters too, which are no digits of the data files.
fn digit(letter: u8) -> Result<u8, BytesError>
    ensures value { MatchResult result (λ d. digit_of letter ≡ Some d) (λ _. digit_of letter ≡ None) }
    ensures small { IfOk result (λ d. d < 16) }
{
    match letter {
        b'0'..=b'9' => Ok(letter - b'0'),
        b'a'..=b'f' => Ok(letter - b'a' + 10),
        _ => Err(BytesError::Digit),
    }
}
