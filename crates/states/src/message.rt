//! The bytes of a closed writer's document.

ghost use Rattle.std.specs.Prelude.{◌≡◌, List, MatchResult};
ghost use Rattle.document.specs.Calls.{Call};
ghost use Rattle.document.specs.WriteOut.{write_out};
ghost use Rattle.ser.specs.Moves.{sheets};
ghost use Rattle.ser.specs.Standing.{Stands};
ghost use Rattle.ser.specs.Tables.{sizes_of};
ghost use Rattle.states.specs.declared.message.MessageError.TheVariants.{Memory, Refused};
ghost use Rattle.replay.specs.Given.{sizes_for};
ghost use Rattle.states.specs.Documents.{state_calls};
ghost use Rattle.states.specs.Sending.{Conveys, Fails, SendFails};

use crate::state::TableState;
use crate::tables::CELLS;
use crate::telling::told;
use column::interface::Column;
use document::refusals::Refusal;
use ser::writer::Closed;
use ser::writer::calls::Parts;
use std::alloc::{AllocError, AllocFailed, Global};
use std::fmt;

/// Room for the bytes of a state.
pub(crate) const ROOM: usize = 256;

/// Why there is no message, or a message is no state.
#[derive(Drop)]
pub enum MessageError {
    Memory,
    Refused(Refusal),
}

// Stays: `from_gives` says which error `?` makes, and clauses rest on it; a derived `From` has none. `Display` stands with them.
impl From<AllocError> for MessageError {
    ghost from_gives = { λ _ e. e ≡ Memory };

    fn from(_e: AllocError) -> MessageError {
        MessageError::Memory
    }
}

impl<T: Drop> From<AllocFailed<T>> for MessageError {
    ghost from_gives = { λ _ e. e ≡ Memory };

    fn from(_e: AllocFailed<T>) -> MessageError {
        MessageError::Memory
    }
}

impl From<Refusal> for MessageError {
    ghost from_gives = { λ r e. e ≡ Refused r };

    fn from(refusal: Refusal) -> MessageError {
        MessageError::Refused(refusal)
    }
}

impl fmt::Display for MessageError {
    fn fmt<W: fmt::Write>(&self, f: &mut fmt::Formatter<W>) -> fmt::Result {
        match self {
            MessageError::Memory => write!(f, "no memory"),
            MessageError::Refused(refusal) => write!(f, "{refusal}"),
        }
    }
}

/// The bytes of a document under a kind, or why there are none: no memory, or what write-out refuses with `CELLS` elements of scratch and `ROOM` bytes of output.
pub(crate) fn message<C: Column>(
    heap: Global,
    closed: &Closed,
    kind: &C,
) -> Result<Vec<u8>, MessageError>
    ensures { (cs : List Call) → Stands closed.now.desk cs → MatchResult result (λ message. Conveys (sizes_of (sheets closed.now.desk.tables)) (C.Column.meaning kind.now) cs message.items) (Fails (write_out (C.Column.meaning kind.now) cs CELLS ROOM)) }
{
    let mut scratch = vec![in heap; 0u64; CELLS]?;
    let mut output = vec![in heap; 0u8; ROOM]?;
    let used = closed.write_out(kind, scratch.as_mut_slice(), output.as_mut_slice())?;
    output.truncate(used);
    Ok(output)
}

/// The bytes of a state under a kind, or why there are none; and the tables again, as long as they were.
pub(crate) fn send<C: Column>(
    heap: Global,
    tables: Parts,
    state: TableState<'_>,
    kind: &C,
) -> (Result<Vec<u8>, MessageError>, Parts)
    ensures message { MatchResult result.0 (λ message. Conveys (sizes_for tables) (C.Column.meaning kind.now) (state_calls state.entry) message.items) (SendFails (sizes_for tables) (write_out (C.Column.meaning kind.now) (state_calls state.entry) CELLS ROOM) (state_calls state.entry)) }
    ensures tables { sizes_for result.1 ≡ sizes_for tables }
{
    let (closed, answer) = told(tables, state);
    let bytes = match answer {
        Ok(()) => message(heap, &closed, kind),
        Err(refusal) => Err(MessageError::Refused(refusal)),
    };
    (bytes, closed.into_tables())
}
