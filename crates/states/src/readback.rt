//! The states, each sent under a kind and read back under the same.

ghost use Rattle.std.specs.Prelude.{◌≡◌, vec_len};
ghost use Rattle.replay.specs.Given.{sizes_for};
ghost use Rattle.states.specs.ComingBack.{ComesBack};

use crate::examples::{DEALT, EMPTY, PLAYED};
use crate::looking::show_looks;
use crate::message::{MessageError, ROOM, send};
use crate::reading::{ReadState, receive};
use crate::shown::Size;
use crate::state::TableState;
use crate::tables::{CELLS, Tables};
use column::flat::Flat;
use column::interface::Column;
use column::short::Short;
use column::steps::Steps;
use std::alloc::Global;
use std::io;

/// A state that was sent and received: its message, and what was read of it.
#[derive(Drop)]
struct Back<'a> {
    message: &'a [u8],
    state: ReadState<'a>,
}

/// Why a state did not come back, and how many bytes its message has if it was sent.
#[derive(Drop)]
struct Failure {
    sent: Option<usize>,
    error: MessageError,
}

/// Sends a state under a kind, as this message, and receives it under the same; and the tables again, as long as they were.
fn returned<'a, C: Column>(
    heap: Global,
    kind: &C,
    state: TableState<'_>,
    tables: Tables,
    message: &'a mut Vec<u8>,
) -> (Result<Back<'a>, Failure>, Tables)
    ensures back { ComesBack (C.Column.meaning kind.now) CELLS ROOM tables state.entry result.0 }
    ensures writer { sizes_for result.1.writer ≡ sizes_for tables.writer }
    ensures nodes { vec_len result.1.reader.nodes ≡ vec_len tables.reader.nodes }
    ensures slots { vec_len result.1.reader.slots ≡ vec_len tables.reader.slots }
{
    let Tables { writer, reader } = tables;
    let (sent, writer) = send(heap, writer, state, kind);
    match sent {
        Ok(bytes) => {
            *message = bytes;
            let message = message.as_slice();
            let (read, reader) = receive(heap, reader, message, kind);
            let tables = Tables { writer, reader };
            match read {
                Ok(state) => (Ok(Back { message, state }), tables),
                Err(error) => {
                    let sent = Some(message.len());
                    (Err(Failure { sent, error }), tables)
                }
            }
        }
        Err(error) => {
            let failure = Failure { sent: None, error };
            (Err(failure), Tables { writer, reader })
        }
    }
}

/// Sends a state under a kind, reads it back, and prints whether what was read is what was written, and who may look into which hand by it.
fn show_return<C: Column>(
    rt: &HostRuntime,
    title: &str,
    kind: &C,
    state: TableState<'_>,
    tables: Tables,
) -> io::Result<Tables> {
    let mut message = Vec::new(rt.alloc());
    let (back, tables) = returned(rt.alloc(), kind, state, tables, &mut message);
    match back {
        Ok(back) => {
            let size = Size(back.message.len());
            println!(rt; "  {title}, {size}")?;
            let same = back.state.is(state);
            println!(rt; "    what was read is what was written: {same}")?;
            show_looks(rt, &back.state)?;
        }
        Err(Failure { sent, error }) => match sent {
            None => println!(rt; "  {title}: {error}")?,
            Some(size) => {
                println!(rt; "  {title}, {}", Size(size))?;
                println!(rt; "    {error}")?;
            }
        },
    }
    Ok(tables)
}

/// Sends a state under each kind, and reads it back. Each reader goes on with the tables of the one before.
fn show_returns(
    rt: &HostRuntime,
    title: &str,
    state: TableState<'_>,
    tables: Tables,
) -> io::Result<Tables> {
    println!(rt; "{title}, read back")?;
    let tables = show_return(rt, "flat", &Flat, state, tables)?;
    let tables = show_return(rt, "short", &Short, state, tables)?;
    show_return(rt, "steps over flat", &Steps { lower: Flat }, state, tables)
}

/// Prints how large the reader's tables are, and each state as it was read back.
pub(crate) fn show_readback(rt: &HostRuntime, tables: Tables) -> io::Result<Tables> {
    let nodes = tables.reader.nodes.len();
    let slots = tables.reader.slots.len();
    println!(rt; "a reader's tables of {nodes} node records and {slots} slots")?;
    let tables = show_returns(rt, "an empty table", EMPTY, tables)?;
    let tables = show_returns(rt, "the deal", DEALT, tables)?;
    show_returns(rt, "a card discarded", PLAYED, tables)
}
