//! Which seat may look into which hand.

ghost use Rattle.std.specs.Prelude.{◌≡◌, ◌↔◌, IsTrue, Some};

use crate::reading::ReadState;
use crate::state::Grant;
use std::{fmt, io};

impl Grant {
    /// Whether it lets its seat look into the hand of this one.
    fn opens(self, seat: usize) -> bool
        ensures { IsTrue result ↔ (self.seat ≡ Some seat) }
    {
        self.seat.map(usize::from) == Some(seat)
    }
}

/// What a seat with these grants may see of another seat's hand.
#[derive(Clone, Copy)]
struct Look<'a> {
    from: usize,
    into: usize,
    grants: &'a [Grant],
}

impl fmt::Display for Look<'_> {
    fn fmt<W: fmt::Write>(&self, f: &mut fmt::Formatter<W>) -> fmt::Result {
        let Look { from, into, grants } = *self;
        let mut opening = grants.iter().filter(|grant| grant.opens(into));
        let Some(first) = opening.next() else {
            return write!(f, "seat {from} may not look into the hand of seat {into}");
        };
        let card = first.card;
        write!(
            f,
            "seat {from} may look into the hand of seat {into}, by card {card}"
        )?;
        for grant in opening {
            let card = grant.card;
            write!(f, " and card {card}")?;
        }
        Ok(())
    }
}

/// Prints of each seat into which hands of the others it may look, and by which cards.
pub(crate) fn show_looks(rt: &HostRuntime, state: &ReadState<'_>) -> io::Result<()> {
    let count = state.seats.len();
    for (from, seat) in state.seats.iter().enumerate() {
        let grants = seat.grants.as_slice();
        for into in (0..count).filter(|into| *into != from) {
            let look = Look { from, into, grants };
            println!(rt; "    {look}")?;
        }
    }
    Ok(())
}
