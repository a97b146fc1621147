//! The states that the program sends.

use crate::state::{Grant, Seat, TableState};

/// Anna, as dealt.
const ANNA: Seat<'static> = Seat {
    name: "Anna",
    cards: &[3, 7, 12],
    grants: &[
        Grant {
            card: 3,
            seat: Some(1),
        },
        Grant {
            card: 7,
            seat: Some(2),
        },
        Grant {
            card: 12,
            seat: Some(2),
        },
    ],
};

/// Anna, after she discarded the second of her cards.
pub(crate) const ANNA_AFTER: Seat<'static> = Seat {
    name: "Anna",
    cards: &[3, 12],
    grants: &[
        Grant {
            card: 3,
            seat: Some(1),
        },
        Grant {
            card: 7,
            seat: None,
        },
        Grant {
            card: 12,
            seat: Some(2),
        },
    ],
};

/// The same, with the discarded card as the last.
const ANNA_MENDED: Seat<'static> = Seat {
    name: "Anna",
    cards: &[3, 12],
    grants: &[
        Grant {
            card: 3,
            seat: Some(1),
        },
        Grant {
            card: 12,
            seat: Some(2),
        },
        Grant {
            card: 7,
            seat: None,
        },
    ],
};

const ZOE: Seat<'static> = Seat {
    name: "Zoé",
    cards: &[21, 22, 40],
    grants: &[],
};

const REN: Seat<'static> = Seat {
    name: "Ren",
    cards: &[5, 9, 200],
    grants: &[Grant {
        card: 200,
        seat: Some(0),
    }],
};

/// A table at which nobody sits.
pub(crate) const EMPTY: TableState<'static> = TableState { seats: &[] };

/// Three seats, as dealt.
pub(crate) const DEALT: TableState<'static> = TableState {
    seats: &[ANNA, ZOE, REN],
};

/// The same, after Anna discarded a card.
pub(crate) const PLAYED: TableState<'static> = TableState {
    seats: &[ANNA_AFTER, ZOE, REN],
};

/// Anna alone, after she discarded a card.
pub(crate) const ALONE: TableState<'static> = TableState {
    seats: &[ANNA_AFTER],
};

/// The same, with the discarded card as the last.
pub(crate) const MENDED: TableState<'static> = TableState {
    seats: &[ANNA_MENDED],
};
