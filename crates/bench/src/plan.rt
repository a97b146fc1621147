//! What is done: with a document of which shape and size, and how often.

ghost use Rattle.std.specs.Prelude.{◌≡◌, MatchResult};
ghost use Rattle.bench.specs.Names.{shape_name, phase_name, IsNoShape, IsNoPhase};

use anyhow::anyhow;
use std::fmt;
use std::str::FromStr;

/// The shape of a document.
#[derive(Clone, Copy, PartialEq, Eq)]
pub(crate) enum Shape {
    /// A seq of seats of a card table: a name, cards, and what they grant.
    Seats,
    /// A seq of tuples of five numbers.
    Numbers,
    /// A seq of texts in ASCII.
    Plain,
    /// A seq of texts whose characters take one to four bytes.
    Scripts,
}

impl FromStr for Shape {
    type Err = anyhow::Error;

    ghost from_str_gives = { λ name r. MatchResult r (λ shape. name ≡ shape_name shape) (λ _. IsNoShape name) };

    fn from_str(name: &str) -> anyhow::Result<Shape> {
        match name {
            "seats" => Ok(Shape::Seats),
            "numbers" => Ok(Shape::Numbers),
            "plain" => Ok(Shape::Plain),
            "scripts" => Ok(Shape::Scripts),
            _ => Err(anyhow!("an unknown shape")),
        }
    }
}

/// What is done with a document.
#[derive(Clone, Copy, PartialEq, Eq)]
pub(crate) enum Phase {
    /// Its calls are printed, one a line.
    Calls,
    /// Tables and buffers are made for it, so often.
    Room,
    /// It is written so often.
    Write,
    /// It is written once, and read so often.
    Read,
    /// It is written and read back, and each answer compared with its call.
    Trip,
}

impl FromStr for Phase {
    type Err = anyhow::Error;

    ghost from_str_gives = { λ name r. MatchResult r (λ phase. name ≡ phase_name phase) (λ _. IsNoPhase name) };

    fn from_str(name: &str) -> anyhow::Result<Phase> {
        match name {
            "calls" => Ok(Phase::Calls),
            "room" => Ok(Phase::Room),
            "write" => Ok(Phase::Write),
            "read" => Ok(Phase::Read),
            "trip" => Ok(Phase::Trip),
            _ => Err(anyhow!("an unknown phase")),
        }
    }
}

/// A phase of a document's life, so often.
#[derive(Clone, Copy)]
pub(crate) struct Plan {
    pub(crate) shape: Shape,
    /// How many elements the document's seq has.
    pub(crate) items: u32,
    pub(crate) phase: Phase,
    pub(crate) times: u32,
}

impl Plan {
    /// The plan that four words say: shape, elements, phase, times.
    pub(crate) fn parse(words: &[String]) -> anyhow::Result<Plan> {
        let [shape, items, phase, times] = words else {
            return Err(anyhow!("wanted: SHAPE ITEMS PHASE TIMES"));
        };
        Ok(Plan {
            shape: shape.parse::<Shape>()?,
            items: items.parse::<u32>()?,
            phase: phase.parse::<Phase>()?,
            times: times.parse::<u32>()?,
        })
    }
}

impl fmt::Display for Plan {
    fn fmt<W: fmt::Write>(&self, f: &mut fmt::Formatter<W>) -> fmt::Result {
        let shape = match self.shape {
            Shape::Seats => "seats",
            Shape::Numbers => "numbers",
            Shape::Plain => "texts",
            Shape::Scripts => "texts of many scripts",
        };
        write!(f, "{} {shape}", self.items)
    }
}
