//! A state, read back by the questions of its shape. The first refusal ends the reading.

ghost use Rattle.std.specs.Prelude.{◌≡◌, ◌↔◌, ℕ, List, IsTrue, vec_items, vec_len};
ghost use Rattle.std.specs.List.{AllZip};
ghost use Rattle.document.specs.Calls.{Call as Said};
ghost use Rattle.de.specs.Readers.{KeepsLengths};
ghost use Rattle.states.specs.declared.asking.Items.TheVariants.{Elements};
ghost use Rattle.states.specs.declared.state.TableState.{TableState};
ghost use Rattle.states.specs.Documents.{number_calls, grant_calls, seat_calls, state_calls};
ghost use Rattle.states.specs.Awaiting.{Awaits, Reads, items_calls};
ghost use Rattle.states.specs.Returned.{SameSeat, SameState, Returned, Receives};

use crate::asking::{Items, end, is_some, length, number, text, tuple};
use crate::message::MessageError;
use crate::state::{Grant, Seat, TableState};
use column::interface::Column;
use de::reader::Reader;
use de::reader::questions::Parts;
use std::alloc::Global;

/// A seat as it was read. Its name stays where it stands in the message.
#[derive(Drop)]
pub struct ReadSeat<'a> {
    pub name: &'a [u8],
    pub cards: Vec<u8>,
    pub grants: Vec<Grant>,
}

/// A state as it was read.
#[derive(Drop)]
pub struct ReadState<'a> {
    pub seats: Vec<ReadSeat<'a>>,
}

/// Whether these are the same grants.
// Stays: a function of its own, since the proof of this `==` needs a lemma of its own.
fn same_grants(one: &[Grant], other: &[Grant]) -> bool
    ensures { IsTrue result ↔ (one.now ≡ other.now) }
{
    one == other
}

impl ReadSeat<'_> {
    /// Whether it is this seat.
    fn is(&self, seat: &Seat<'_>) -> bool
        ensures { IsTrue result ↔ SameSeat self.now seat.now }
    {
        self.name == seat.name.as_bytes()
            && self.cards.as_slice() == seat.cards
            && same_grants(&self.grants, seat.grants)
    }
}

/// Whether these are the same seats, one after another.
// Stays: the recursion goes down both lists as the definition does, and needs no length compared first.
fn are(reads: &[ReadSeat<'_>], seats: &[Seat<'_>]) -> bool
    ensures { IsTrue result ↔ AllZip SameSeat reads.now seats.now }
{
    match reads {
        [] => seats.is_empty(),
        [read, reads @ ..] => match seats {
            [] => false,
            [seat, seats @ ..] => read.is(seat) && are(reads, seats),
        },
    }
}

impl ReadState<'_> {
    /// Whether it is this state.
    pub(crate) fn is(&self, state: TableState<'_>) -> bool
        ensures { IsTrue result ↔ SameState self.now state.entry }
    {
        are(&self.seats, state.seats)
    }
}

/// What can be read.
trait Read: Drop {
    ghost calls: { Self → List Said };

    /// Reads it by the questions of its calls, up to the first that is refused.
    fn read<C: Column>(reader: &mut Reader<'_, C>) -> Result<Self, MessageError>
        ensures { (input : List ℕ) → Reads C.Column.meaning input reader.old reader.new calls (λ y x. y ≡ x) result };
}

/// A number of eight bits.
impl Read for u8 {
    ghost calls = { number_calls };

    fn read<C: Column>(reader: &mut Reader<'_, C>) -> Result<u8, MessageError> {
        number(reader)
    }
}

/// A card, and the seat whose hand it opens, if any.
impl Read for Grant {
    ghost calls = { grant_calls };

    fn read<C: Column>(reader: &mut Reader<'_, C>) -> Result<Grant, MessageError> {
        let card = number(reader)?;
        let seat = if is_some(reader)? {
            Some(number(reader)?)
        } else {
            None
        };
        Ok(Grant { card, seat })
    }
}

/// A list or a map: its items, and its end.
fn read_list<C: Column, T: Read>(
    heap: Global,
    reader: &mut Reader<'_, C>,
    items: Items,
) -> Result<Vec<T>, MessageError>
    ensures { (input : List ℕ) → Reads C.Column.meaning input reader.old reader.new (items_calls items T.calls) (λ y xs. vec_items y ≡ xs) result }
{
    let mut list = Vec::new(heap);
    for _ in 0..length(reader, items)? {
        list.push(T::read(reader)?)?;
    }
    end(reader)?;
    Ok(list)
}

/// A seat.
fn read_seat<'a, C: Column>(
    heap: Global,
    reader: &mut Reader<'_, C>,
    input: &'a [u8],
) -> Result<ReadSeat<'a>, MessageError>
    ensures { Reads C.Column.meaning input.now reader.old reader.new seat_calls SameSeat result }
{
    tuple(reader, 3)?;
    let name = text(reader, input)?;
    let cards = read_list(heap, reader, Items::Elements)?;
    let grants = read_list(heap, reader, Items::Pairs)?;
    end(reader)?;
    Ok(ReadSeat {
        name,
        cards,
        grants,
    })
}

/// All seats.
// Stays: a loop of its own beside `read_list`, since a seat that was read is of another type than one that was told: it is the same as that one, and not equal to it.
fn read_seats<'a, C: Column>(
    heap: Global,
    reader: &mut Reader<'_, C>,
    input: &'a [u8],
) -> Result<Vec<ReadSeat<'a>>, MessageError>
    ensures { Reads C.Column.meaning input.now reader.old reader.new (items_calls Elements seat_calls) (λ y xs. AllZip SameSeat (vec_items y) xs) result }
{
    let mut seats = Vec::new(heap);
    for _ in 0..length(reader, Items::Elements)? {
        seats.push(read_seat(heap, reader, input)?)?;
    }
    end(reader)?;
    Ok(seats)
}

/// All seats, and nothing after them.
fn read_state<'a, C: Column>(
    heap: Global,
    reader: &mut Reader<'_, C>,
    input: &'a [u8],
) -> Result<ReadState<'a>, MessageError>
    ensures lengths { KeepsLengths reader.old reader.new }
    ensures reads { (s : TableState) → Awaits C.Column.meaning input.now reader.old (state_calls s) → Returned s result }
{
    let seats = read_seats(heap, reader, input)?;
    reader.finish()?;
    Ok(ReadState { seats })
}

/// The state that a message of a kind is, or why it is none; and the tables again, as long as they were.
pub(crate) fn receive<'a, C: Column>(
    heap: Global,
    tables: Parts,
    message: &'a [u8],
    kind: &C,
) -> (Result<ReadState<'a>, MessageError>, Parts)
    ensures state { Receives (C.Column.meaning kind.now) (vec_len tables.nodes) (vec_len tables.slots) message.now result.0 }
    ensures nodes { vec_len result.1.nodes ≡ vec_len tables.nodes }
    ensures slots { vec_len result.1.slots ≡ vec_len tables.slots }
{
    let Parts { nodes, slots } = tables;
    let mut reader = Reader::new(kind, message, nodes, slots);
    let state = read_state(heap, &mut reader, message);
    (state, reader.into_tables())
}
