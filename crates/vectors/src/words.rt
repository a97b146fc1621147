//! The words of a line.

use anyhow::Context;

/// What is left of a line.
#[derive(Drop)]
pub struct Words<'a> {
    rest: &'a str,
}

impl<'a> Words<'a> {
    pub(crate) fn of(line: &'a str) -> Words<'a> {
        Words { rest: line }
    }

    /// The next word, up to a space.
    pub(crate) fn word(&mut self) -> anyhow::Result<&'a str> {
        let (word, rest) = self.rest.split_once(' ').context("a word is missing")?;
        self.rest = rest;
        Ok(word)
    }

    /// The next word, a size.
    pub(crate) fn size(&mut self) -> anyhow::Result<usize> {
        Ok(self.word()?.parse::<usize>()?)
    }

    /// All that is left.
    pub(crate) fn rest(&self) -> &'a str {
        self.rest
    }
}
