//! A document is written, as often as wanted.

ghost use Rattle.std.specs.Prelude.{◌≡◌, length};
ghost use Rattle.replay.specs.Given.{accepted_calls, calls_of, sizes_for};
ghost use Rattle.bench.specs.Writing.{Wrote};

use column::interface::Column;
use replay::steps::Step;
use replay::write::{Written, write_steps};
use ser::writer::calls::Parts;

/// Writes a document so often, at least once, each time with a new writer over the same tables.
pub(crate) fn write_often<C: Column>(
    kind: &C,
    steps: &mut [Step<'_>],
    tables: Parts,
    scratch: &mut [u64],
    output: &mut [u8],
    times: u32,
) -> Written
    ensures wrote { Wrote (C.meaning kind.now) (accepted_calls tables steps.old) (length scratch.old) (length output.old) output.new result.answer }
    ensures calls { calls_of steps.new ≡ calls_of steps.old }
    ensures tables { sizes_for result.tables ≡ sizes_for tables }
{
    let mut written = write_steps(kind, steps, tables, scratch, output);
    for _ in 1..times {
        written = write_steps(kind, steps, written.tables, scratch, output);
    }
    written
}
