//! Why a column refused, and which layer found it.

ghost use Rattle.std.specs.Prelude.{◌≡◌, Some};
ghost use Rattle.column.specs.Parsed.{fault};
ghost use Rattle.column.specs.Words.{cause_words, fault_words};

use std::error::Error;
use std::fmt;

/// Why a column refused.
#[derive(Clone, Copy, PartialEq, Eq, Debug)]
pub enum Cause {
    /// The image passes the output's end.
    Room,
    /// The input ends before the last value does.
    Short,
    /// A width that is not listed, or a value or a form that the width does not admit.
    Bad,
}

impl Cause {
    /// The refusal of the layer that found this cause.
    pub fn at(self, layer: u16) -> Fault
        ensures { result ≡ fault self layer }
    {
        Fault { cause: self, layer }
    }
}

impl fmt::Display for Cause {
    ghost output = { λ cause. Some (cause_words cause) };

    fn fmt<W: fmt::Write>(&self, f: &mut fmt::Formatter<W>) -> fmt::Result {
        match self {
            Cause::Room => f.write_str("ROOM, the image passes the output's end"),
            Cause::Short => f.write_str("SHORT, the input ends before the last value does"),
            Cause::Bad => f.write_str(
                "BAD, a width that is not listed, or a value or form that it does not admit",
            ),
        }
    }
}

/// A refusal: its cause, and the layer that found it. The top layer is 0, and layers are counted up to 65,535 and no further.
#[derive(Clone, Copy, PartialEq, Eq, Debug)]
pub struct Fault {
    pub cause: Cause,
    pub layer: u16,
}

impl fmt::Display for Fault {
    ghost output = { λ refusal. Some (fault_words refusal) };

    fn fmt<W: fmt::Write>(&self, f: &mut fmt::Formatter<W>) -> fmt::Result {
        let Fault { cause, layer } = *self;
        write!(f, "{cause}; found at layer {layer}")
    }
}

impl Error for Fault {}
