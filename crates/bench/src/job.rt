//! A plan is carried out.

ghost use Rattle.std.specs.Prelude.{◌≡◌, map as each, IfOk};
ghost use Rattle.document.specs.Said.{said, asked};

use crate::listening::{Listened, listen_often};
use crate::plan::{Phase, Plan};
use crate::script::{letters_of, steps_of};
use crate::shown::{Bytes, Line, Returned};
use crate::tables::{Room, room_for};
use crate::writing::write_often;
use column::flat::Flat;
use document::questions::Question;
use replay::steps::Step;
use replay::trip::round_trip;
use std::alloc::{AllocError, Global};

/// The question for each call.
fn questions_of(heap: Global, steps: &[Step<'_>]) -> Result<Vec<Question>, AllocError>
    ensures { IfOk result (λ questions. questions.items ≡ each (λ step. asked step.no_size (said step.call)) steps.now) }
{
    steps
        .iter()
        .map(|step| step.call.question(step.no_size))
        .collect(heap)
}

/// Prints the calls, one a line.
fn show_calls(rt: &HostRuntime, steps: &[Step<'_>]) -> anyhow::Result<()> {
    for step in steps {
        println!(rt; "{}", Line(step.call))?;
    }
    Ok(())
}

/// Makes tables and buffers so often, at least once.
fn show_room(rt: &HostRuntime, steps: &[Step<'_>], times: u32) -> anyhow::Result<()> {
    let mut room = room_for(rt.alloc(), steps)?;
    for _ in 1..times {
        room = room_for(rt.alloc(), steps)?;
    }
    let cells = room.writer.cells.len();
    let bytes = room.output.len();
    println!(rt; "  {cells} cells, {bytes} bytes of output")?;
    Ok(())
}

/// Writes a document so often.
fn run_write(
    rt: &HostRuntime,
    steps: &mut [Step<'_>],
    room: Room,
    times: u32,
) -> anyhow::Result<()> {
    let Room {
        writer,
        mut scratch,
        mut output,
        ..
    } = room;
    let written = write_often(&Flat, steps, writer, &mut scratch, &mut output, times);
    let size = written.answer?;
    println!(rt; "  {}", Bytes(&output[..size]))?;
    Ok(())
}

/// Writes a document, and reads it so often.
fn run_read(
    rt: &HostRuntime,
    steps: &mut [Step<'_>],
    room: Room,
    times: u32,
) -> anyhow::Result<()> {
    let Room {
        writer,
        reader,
        mut scratch,
        mut output,
    } = room;
    let written = write_often(&Flat, steps, writer, &mut scratch, &mut output, 1);
    let size = written.answer?;
    let questions = questions_of(rt.alloc(), steps)?;
    let Listened { heard, .. } = listen_often(&Flat, &output[..size], &questions, reader, times);
    let tally = heard?;
    println!(rt; "  {tally}")?;
    Ok(())
}

/// Writes a document and reads it back, and compares each answer with its call.
fn run_trip(rt: &HostRuntime, steps: &mut [Step<'_>], room: Room) -> anyhow::Result<()> {
    let Room {
        writer,
        reader,
        mut scratch,
        mut output,
    } = room;
    let trip = round_trip(&Flat, steps, writer, reader, &mut scratch, &mut output);
    let size = trip.written?;
    println!(rt; "  {}", Bytes(&output[..size]))?;
    if let Some(heard) = trip.heard {
        println!(rt; "  {}", Returned(heard))?;
    }
    Ok(())
}

/// Carries out a plan.
pub(crate) fn run(rt: &HostRuntime, plan: Plan) -> anyhow::Result<()> {
    let letters = letters_of(rt.alloc(), plan.shape)?;
    let mut steps = steps_of(rt.alloc(), plan.shape, plan.items, &letters)?;
    if plan.phase == Phase::Calls {
        return show_calls(rt, &steps);
    }
    println!(rt; "{plan}: {} calls", steps.len())?;
    if plan.phase == Phase::Room {
        return show_room(rt, &steps, plan.times);
    }
    let room = room_for(rt.alloc(), &steps)?;
    match plan.phase {
        Phase::Write => run_write(rt, &mut steps, room, plan.times),
        Phase::Read => run_read(rt, &mut steps, room, plan.times),
        _ => run_trip(rt, &mut steps, room),
    }
}
