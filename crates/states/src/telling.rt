//! A state, as the calls that tell it to a writer. The first refusal ends the telling.

ghost use Rattle.std.specs.Prelude.{List, [], ◌∷◌, ◌++◌};
ghost use Rattle.std.specs.List.{flat_map};
ghost use Rattle.document.specs.Calls.{Call as Said, end};
ghost use Rattle.document.specs.Said.{said};
ghost use Rattle.states.specs.Documents.{number_calls, grant_calls, hand_calls, seat_calls, state_calls};
ghost use Rattle.replay.specs.Given.{sizes_for};
ghost use Rattle.states.specs.Adding.{Tells, TellsAll};

use crate::state::{Grant, Seat, TableState};
use crate::tables::begin;
use document::calls::Call;
use document::refusals::Refusal;
use ser::writer::calls::Parts;
use ser::writer::{Closed, Writer};

/// What a writer can be told.
pub(crate) trait Tell {
    ghost calls: { Self → List Said };

    /// Tells it by its calls, up to the first that is refused.
    fn tell(&self, writer: &mut Writer) -> Result<(), Refusal>
        ensures { Tells writer.old writer.new (calls self.now) result };
}

/// A list: what announces it, its elements, and its end.
fn tell_list<T: Tell>(
    announcement: Call<'_>,
    elements: &[T],
    writer: &mut Writer,
) -> Result<(), Refusal>
    ensures { Tells writer.old writer.new (said announcement.entry ∷ flat_map T.calls elements.now ++ end ∷ []) result }
{
    writer.call(announcement)?;
    for element in elements {
        element.tell(writer)?;
    }
    writer.call(Call::End)
}

/// A number of eight bits.
impl Tell for u8 {
    ghost calls = { number_calls };

    fn tell(&self, writer: &mut Writer) -> Result<(), Refusal> {
        writer.call(Call::U8(*self))
    }
}

/// A card, and the seat whose hand it opens, if any.
impl Tell for Grant {
    ghost calls = { grant_calls };

    fn tell(&self, writer: &mut Writer) -> Result<(), Refusal> {
        self.card.tell(writer)?;
        match self.seat {
            Some(seat) => {
                writer.call(Call::Some)?;
                seat.tell(writer)
            }
            None => writer.call(Call::None),
        }
    }
}

impl Seat<'_> {
    /// The beginning of a seat: its name and its cards.
    pub(crate) fn tell_hand(&self, writer: &mut Writer) -> Result<(), Refusal>
        ensures { Tells writer.old writer.new (hand_calls self.now) result }
    {
        writer.call(Call::Tuple(3))?;
        writer.call(Call::Text(self.name.as_bytes()))?;
        tell_list(Call::Seq(self.cards.len() as u64), self.cards, writer)
    }
}

impl Tell for Seat<'_> {
    ghost calls = { seat_calls };

    fn tell(&self, writer: &mut Writer) -> Result<(), Refusal> {
        self.tell_hand(writer)?;
        tell_list(Call::Map(self.grants.len() as u64), self.grants, writer)?;
        writer.call(Call::End)
    }
}

/// All seats.
impl Tell for TableState<'_> {
    ghost calls = { state_calls };

    fn tell(&self, writer: &mut Writer) -> Result<(), Refusal> {
        tell_list(Call::Seq(self.seats.len() as u64), self.seats, writer)
    }
}

/// Calls in turn, up to the first that is refused.
pub(crate) fn call_each(writer: &mut Writer, calls: &[Call<'_>]) -> Result<(), Refusal> {
    calls.iter().try_for_each(|call| writer.call(*call))
}

/// A closed writer over the tables that was told a state, and what it answered.
pub(crate) fn told(tables: Parts, state: TableState<'_>) -> (Closed, Result<(), Refusal>)
    ensures { TellsAll (sizes_for tables) result.0.desk (state_calls state.entry) result.1 }
{
    let mut writer = begin(tables);
    let answer = state.tell(&mut writer);
    (writer.close(), answer)
}
