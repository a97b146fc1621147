//! Lists of calls that are written and read back in one call, and two that are compared by their bytes.

use crate::shown::Size;
use crate::tables::{Tables, reader_tables};
use column::flat::Flat;
use column::interface::Column;
use column::short::Short;
use column::steps::Steps;
use de::reader::questions::Parts as ReaderParts;
use document::calls::Call;
use document::refusals::Refusal;
use replay::compare::{Compared, same_bytes};
use replay::steps::Step;
use replay::trip::{Heard, Mismatch, Trip, round_trip};
use ser::writer::calls::Parts;
use std::{fmt, io};

/// Elements of scratch, and bytes of output, for each of these lists.
const ROOM: usize = 32;

/// How many of Anna's calls come before the end of her map that comes too early.
const SHORT_OF: usize = 13;

/// Anna's hand, and what three cards grant: two pairs, an end that comes too early, and the third pair.
const ANNA: [Call<'static>; 18] = [
    Call::Tuple(3),
    Call::Text(b"Anna"),
    Call::Seq(2),
    Call::U8(3),
    Call::U8(12),
    Call::End,
    Call::Map(3),
    Call::U8(3),
    Call::Some,
    Call::U8(1),
    Call::U8(12),
    Call::Some,
    Call::U8(2),
    Call::End,
    Call::U8(7),
    Call::None,
    Call::End,
    Call::End,
];

/// A card that looks into the hand of seat 1, and one that looks into that of seat 2.
const ONE: [Call<'static>; 2] = [Call::Some, Call::U8(1)];

const TWO: [Call<'static>; 2] = [Call::Some, Call::U8(2)];

/// How a reading ended, for printing.
#[derive(Clone, Copy)]
struct Shown(Result<(), Mismatch>);

impl fmt::Display for Shown {
    fn fmt<W: fmt::Write>(&self, f: &mut fmt::Formatter<W>) -> fmt::Result {
        match self.0 {
            Ok(()) => write!(f, "finish accepted"),
            Err(Mismatch::Other) => write!(f, "then another value"),
            Err(Mismatch::Refused(refusal)) => write!(f, "then {refusal}"),
        }
    }
}

/// Prints what write-out answered.
fn show_written(rt: &HostRuntime, title: &str, written: Result<usize, Refusal>) -> io::Result<()> {
    match written {
        Ok(size) => {
            let size = Size(size);
            println!(rt; "  {title}: {size}")
        }
        Err(refusal) => println!(rt; "  {title}: {refusal}"),
    }
}

/// Prints which calls were refused.
fn show_refused(rt: &HostRuntime, steps: &[Step<'_>]) -> io::Result<()> {
    for (number, step) in steps.iter().enumerate() {
        if !step.accepted {
            println!(rt; "    call {number} was refused")?;
        }
    }
    Ok(())
}

/// Writes calls under a kind, reads them back, and prints what was heard.
fn show_trip<C: Column>(
    rt: &HostRuntime,
    title: &str,
    kind: &C,
    steps: &mut [Step<'_>],
    tables: Tables,
) -> io::Result<Tables> {
    let mut scratch = vec![in rt.alloc(); 0u64; ROOM]?;
    let mut output = vec![in rt.alloc(); 0u8; ROOM]?;
    let Tables { writer, reader } = tables;
    let Trip {
        written,
        heard,
        writer,
        reader,
    } = round_trip(
        kind,
        steps,
        writer,
        reader,
        scratch.as_mut_slice(),
        output.as_mut_slice(),
    );
    show_written(rt, title, written)?;
    show_refused(rt, steps)?;
    if let Some(Heard { count, ending }) = heard {
        let ending = Shown(ending);
        println!(rt; "    {count} answers are the calls' values, {ending}")?;
    }
    Ok(Tables { writer, reader })
}

/// Writes two lists of calls under a kind, and prints whether their bytes are the same.
fn show_compared<C: Column>(
    rt: &HostRuntime,
    title: &str,
    kind: &C,
    one: &mut [Step<'_>],
    other: &mut [Step<'_>],
    tables: Parts,
) -> io::Result<Parts> {
    let mut scratch = vec![in rt.alloc(); 0u64; ROOM]?;
    let mut output = vec![in rt.alloc(); 0u8; ROOM]?;
    let mut second_output = vec![in rt.alloc(); 0u8; ROOM]?;
    let Compared {
        first,
        second,
        same,
        tables,
    } = same_bytes(
        kind,
        one,
        other,
        tables,
        scratch.as_mut_slice(),
        output.as_mut_slice(),
        second_output.as_mut_slice(),
    );
    println!(rt; "{title}")?;
    show_written(rt, "the first", first)?;
    show_written(rt, "the second", second)?;
    if let Some(same) = same {
        println!(rt; "  the same bytes: {same}")?;
    }
    Ok(tables)
}

/// Shows that what was written comes back: under each kind, a list with a call that is refused; one that stops after it; and one for which the reader's tables are too small.
pub(crate) fn show_trips(rt: &HostRuntime, tables: Tables) -> io::Result<Tables> {
    println!(rt; "there and back: a map of three pairs that is ended after two, and then goes on")?;
    let tables = show_trip(rt, "flat", &Flat, &mut ANNA.map(Step::of), tables)?;
    let tables = show_trip(rt, "short", &Short, &mut ANNA.map(Step::of), tables)?;
    let steps = &Steps { lower: Flat };
    let tables = show_trip(
        rt,
        "steps over flat",
        steps,
        &mut ANNA.map(Step::of),
        tables,
    )?;
    println!(rt; "there and not back")?;
    let mut few = ANNA.map(Step::of);
    let tables = show_trip(
        rt,
        "two pairs of three",
        &Flat,
        &mut few[..=SHORT_OF],
        tables,
    )?;
    let Tables { writer, reader } = tables;
    let small = Tables {
        writer,
        reader: reader_tables(rt.alloc(), 2, 1)?,
    };
    let small = show_trip(
        rt,
        "no slot for the reader",
        &Flat,
        &mut ONE.map(Step::of),
        small,
    )?;
    let Tables {
        writer,
        reader: ReaderParts { .. },
    } = small;
    Ok(Tables { writer, reader })
}

/// Shows that lists which are asked alike are told apart by their bytes.
pub(crate) fn show_apart(rt: &HostRuntime, tables: Parts) -> io::Result<Parts> {
    let mut one = ONE.map(Step::of);
    let mut two = TWO.map(Step::of);
    let tables = show_compared(
        rt,
        "a look into the hand of seat 1, and one of seat 2",
        &Flat,
        &mut one,
        &mut two,
        tables,
    )?;
    let mut again = ONE.map(Step::of);
    show_compared(
        rt,
        "a look into the hand of seat 1, twice",
        &Flat,
        &mut one,
        &mut again,
        tables,
    )
}
