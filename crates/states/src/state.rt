//! A card table's state, as the engine holds it.

/// What a card lets its seat do: look into the hand of another seat, given by its number; nothing once the card is discarded.
#[derive(Clone, Copy, PartialEq, Eq, Debug)]
pub struct Grant {
    pub card: u8,
    pub seat: Option<u8>,
}

/// A seat: its name, the cards in its hand, and what its cards grant.
#[derive(Clone, Copy)]
pub struct Seat<'a> {
    pub name: &'a str,
    pub cards: &'a [u8],
    pub grants: &'a [Grant],
}

/// The seats of a table, counted from 0.
#[derive(Clone, Copy)]
pub struct TableState<'a> {
    pub seats: &'a [Seat<'a>],
}
