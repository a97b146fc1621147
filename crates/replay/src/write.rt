//! Calls given to one new writer, which is closed and written out.

ghost use Rattle.std.specs.Prelude.{◌≡◌, List, [], length, vec_len};
ghost use Rattle.document.specs.Calls.{Call as Said};
ghost use Rattle.document.specs.Verdict.{Accepted};
ghost use Rattle.ser.specs.Standing.{Stands, WrittenOut};
ghost use Rattle.replay.specs.Given.{calls_of, kept, accepted_calls, marked, marked_for, desk_of, sizes_at, sizes_for};

use crate::steps::Step;
use column::interface::Column;
use document::refusals::Refusal;
use ser::writer::Writer;
use ser::writer::calls::Parts;

/// What a document came to: the number of its bytes, or write-out's refusal; and the tables, for the next one.
#[derive(Drop)]
pub struct Written {
    pub answer: Result<usize, Refusal>,
    pub tables: Parts,
}

/// Gives each call to the writer, and marks those that it accepts.
fn give(writer: &mut Writer, steps: &mut [Step<'_>])
    ensures stands { (cs : List Said) → Stands (desk_of writer.old) cs → Stands (desk_of writer.new) (kept (sizes_at writer.old) cs (calls_of steps.old)) }
    ensures steps { (cs : List Said) → Stands (desk_of writer.old) cs → steps.new ≡ marked (sizes_at writer.old) cs steps.old }
    ensures sizes { (cs : List Said) → Stands (desk_of writer.old) cs → sizes_at writer.new ≡ sizes_at writer.old }
{
    for step in steps.iter_mut() {
        step.accepted = writer.call(step.call).is_ok();
    }
}

/// Gives each call to one new writer over these tables, marks those that it accepts, closes it and writes it out.
// Stays: kind, scratch and output are the arguments of write-out, in its order, here and in `round_trip` and `same_bytes`; a struct of two borrowed buffers would be made anew for each call.
pub fn write_steps<C: Column>(
    kind: &C,
    steps: &mut [Step<'_>],
    tables: Parts,
    scratch: &mut [u64],
    output: &mut [u8],
) -> Written
    ensures steps { steps.new ≡ marked_for tables steps.old }
    ensures accepted { Accepted (sizes_for tables) (accepted_calls tables steps.old) }
    ensures written { WrittenOut (C.meaning kind.now) (accepted_calls tables steps.old) scratch.old scratch.new output.old output.new result.answer }
    ensures tables { sizes_for result.tables ≡ sizes_for tables }
{
    let Parts { nodes, cells, text } = tables;
    let mut writer = Writer::new(nodes, cells, text);
    give(&mut writer, steps);
    let closed = writer.close();
    let answer = closed.write_out(kind, scratch, output);
    Written {
        answer,
        tables: closed.into_tables(),
    }
}
