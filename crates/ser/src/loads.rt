//! What a call brings to the node at which its value stands.

ghost use Rattle.std.specs.Prelude.{◌≡◌, Some, None};
ghost use Rattle.document.specs.Calls.{scalar, val};
ghost use Rattle.document.specs.Said.{said};
ghost use Rattle.document.specs.Tables.{length_cells};
ghost use Rattle.nodes.specs.declared.marks.Mark.TheVariants.{Enum as enum_mark};
ghost use Rattle.ser.specs.Brings.{Brings, number_load, length_load, is_opening};

use document::calls::Call;
use document::limits::LONG;
use document::numbers::Number;
use nodes::marks::Mark;

/// What a node keeps of a value.
#[derive(Clone, Copy)]
pub(crate) struct Load {
    /// A number, an index or a length.
    pub(crate) value: u64,
    /// What it adds to the node's sum of lengths: a length itself, and else nothing.
    pub(crate) extent: u64,
}

impl Load {
    /// A number or an index.
    fn number(value: u64) -> Load
        ensures { result ≡ number_load value }
    {
        Load { value, extent: 0 }
    }

    /// A length.
    fn length(value: u64) -> Load
        ensures { result ≡ length_load value }
    {
        Load {
            value,
            extent: value,
        }
    }

    /// How many cells it takes: a long length takes a second one.
    pub(crate) fn cells(self) -> usize
        ensures { result ≡ length_cells self.extent }
    {
        if self.extent < LONG { 1 } else { 2 }
    }
}

/// What a call brings to its node. A `tuple 1` brings nothing, and has none.
#[derive(Clone, Copy)]
pub(crate) struct Brought<'a> {
    pub(crate) call: Call<'a>,
    /// What it marks its node as; `end` is no value, and marks nothing.
    pub(crate) mark: Mark,
    /// What the node keeps of it.
    pub(crate) load: Option<Load>,
    /// The index whose child the value that follows stands at.
    pub(crate) index: Option<u32>,
    ghost brings: { Brings (said call) mark load index },
}

// Stays: beside the reader's functions on answers, since calls and answers are other types.
impl<'a> Brought<'a> {
    /// A number.
    pub(crate) fn number(call: Call<'a>, number: Number) -> Brought<'a>
        requires { said call ≡ val (scalar number.kind number.bits) }
        ensures { result.call ≡ call.entry }
    {
        Brought {
            call,
            mark: Mark::Scalar(number.kind),
            load: Some(Load::number(number.bits)),
            index: None,
        }
    }

    /// An option, as index 0 or 1, or a variant.
    pub(crate) fn index(call: Call<'a>, index: u32) -> Brought<'a>
        requires { Brings (said call) enum_mark (Some (number_load index)) (Some index) }
        ensures { result.call ≡ call.entry }
    {
        Brought {
            call,
            mark: Mark::Enum,
            load: Some(Load::number(u64::from(index))),
            index: Some(index),
        }
    }

    /// A length, of a text, a seq or a map.
    pub(crate) fn length(call: Call<'a>, mark: Mark, length: u64) -> Brought<'a>
        requires { Brings (said call) mark (Some (length_load length)) None }
        ensures { result.call ≡ call.entry }
    {
        Brought {
            call,
            mark,
            load: Some(Load::length(length)),
            index: None,
        }
    }

    /// Nothing but a mark.
    pub(crate) fn bare(call: Call<'a>, mark: Mark) -> Brought<'a>
        requires { Brings (said call) mark None None }
        ensures { result.call ≡ call.entry }
    {
        Brought {
            call,
            mark,
            load: None,
            index: None,
        }
    }
}

/// Whether the call opens a place.
// Stays: `inline(never)`, since it is asked only where as many places are open as there can be.
#[inline(never)]
pub(crate) fn is_opening(call: Call) -> bool
    ensures { result ≡ is_opening (said call.entry) }
{
    matches!(
        call,
        Call::Some | Call::Variant(_) | Call::Seq(_) | Call::Map(_) | Call::Tuple(_)
    )
}
