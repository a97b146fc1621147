//! The test whether bytes are well-formed UTF-8.
#![tactic(auto)]

ghost use Rattle.std.specs.Prelude.{◌≡◌, true, is_ok, if◌then◌else◌, Ok, Err, Some, codes, Decides};
ghost use Rattle.utf8.specs.Table.{WellFormed};
ghost use Rattle.utf8.specs.Scalars.{Encodes};
ghost use Rattle.utf8.specs.Passes.{passes};
ghost use Rattle.utf8.specs.Examples.{examples};

use crate::ascii::past_ascii;
use crate::ranges::{four, three, two, within};
use std::error::Error;
use std::fmt;

mod ascii;
mod ranges;

/// Why bytes are refused.
#[derive(Clone, Copy, PartialEq, Eq, Debug)]
pub enum Fault {
    /// They are not well-formed UTF-8.
    IllFormed,
}

impl fmt::Display for Fault {
    ghost output = { λ _. Some (codes "ILL-FORMED, it is not well-formed UTF-8") };

    fn fmt<W: fmt::Write>(&self, f: &mut fmt::Formatter<W>) -> fmt::Result {
        match self {
            Fault::IllFormed => f.write_str("ILL-FORMED, it is not well-formed UTF-8"),
        }
    }
}

impl Error for Fault {}

/// Whether the text is well-formed UTF-8, by an arm for each row of table 3-7 of the Unicode Standard.
// Stays: named bytes and a guard for each row is the project's rule; a row's tests are one call, so that the proof has one goal for each row.
pub fn well_formed(text: &[u8]) -> Result<(), Fault>
    ensures table { Decides (is_ok result) (WellFormed text.now) }
    ensures encoding { Decides (is_ok result) (Encodes text.now) }
    ensures computed { is_ok result ≡ passes text.now }
    ensures answer { result ≡ (if passes text.now then Ok tt else Err Fault.IllFormed) }
{
    let mut s = text;
    loop {
        s = match s {
            [] => return Ok(()),
            [a, rest @ ..] if within(0x00, a, 0x7f).holds() => past_ascii(rest),
            [a, b, rest @ ..] if two(within(0xc2, a, 0xdf), within(0x80, b, 0xbf)) => rest,
            [a, b, c, rest @ ..]
                if three(
                    within(0xe0, a, 0xe0),
                    within(0xa0, b, 0xbf),
                    within(0x80, c, 0xbf),
                ) => rest,
            [a, b, c, rest @ ..]
                if three(
                    within(0xe1, a, 0xec),
                    within(0x80, b, 0xbf),
                    within(0x80, c, 0xbf),
                ) => rest,
            [a, b, c, rest @ ..]
                if three(
                    within(0xed, a, 0xed),
                    within(0x80, b, 0x9f),
                    within(0x80, c, 0xbf),
                ) => rest,
            [a, b, c, rest @ ..]
                if three(
                    within(0xee, a, 0xef),
                    within(0x80, b, 0xbf),
                    within(0x80, c, 0xbf),
                ) => rest,
            [a, b, c, d, rest @ ..]
                if four(
                    within(0xf0, a, 0xf0),
                    within(0x90, b, 0xbf),
                    within(0x80, c, 0xbf),
                    within(0x80, d, 0xbf),
                ) => rest,
            [a, b, c, d, rest @ ..]
                if four(
                    within(0xf1, a, 0xf3),
                    within(0x80, b, 0xbf),
                    within(0x80, c, 0xbf),
                    within(0x80, d, 0xbf),
                ) => rest,
            [a, b, c, d, rest @ ..]
                if four(
                    within(0xf4, a, 0xf4),
                    within(0x80, b, 0x8f),
                    within(0x80, c, 0xbf),
                    within(0x80, d, 0xbf),
                ) => rest,
            _ => return Err(Fault::IllFormed),
        }
    }
}

/// The examples come out as they should.
pub fn examples_hold() -> bool
    ensures value { result ≡ examples }
    ensures holds { examples ≡ true }
{
    true
}
