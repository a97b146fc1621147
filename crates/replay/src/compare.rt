//! Two lists of calls, told apart by their bytes.

ghost use Rattle.std.specs.Prelude.{◌≡◌, ◌≤◌, List, [], length, IfOk};
ghost use Rattle.replay.specs.Given.{accepted_calls, marked_for, sizes_for};
ghost use Rattle.replay.specs.Compared.{WroteBoth, SameBytes, ToldApart};

use crate::steps::Step;
use crate::write::{Written, write_steps};
use column::interface::Column;
use document::refusals::Refusal;
use ser::writer::calls::Parts;

/// Two documents: what write-out answered of each, whether their bytes are the same if both were written out, and the tables, for the next ones.
#[derive(Drop)]
pub struct Compared {
    pub first: Result<usize, Refusal>,
    pub second: Result<usize, Refusal>,
    pub same: Option<bool>,
    pub tables: Parts,
}

/// Whether the bytes that two documents begin these outputs with are the same, if both were written out.
fn alike(
    first: Result<usize, Refusal>,
    second: Result<usize, Refusal>,
    one: &[u8],
    other: &[u8],
) -> Option<bool>
    requires one { IfOk first (λ n. n ≤ length one.now) }
    requires other { IfOk second (λ m. m ≤ length other.now) }
    ensures { SameBytes first second one.now other.now result }
{
    match (first, second) {
        (Ok(n), Ok(m)) => Some(one[..n] == other[..m]),
        _ => None,
    }
}

/// Writes two lists of calls out, each with a writer of its own over the same tables, and compares their bytes.
///
/// The clause `told_apart` is what the bytes tell: of two documents that were written out and are asked alike, the accepted calls are equal exactly where the bytes are the same.
pub fn same_bytes<C: Column>(
    kind: &C,
    one: &mut [Step<'_>],
    other: &mut [Step<'_>],
    tables: Parts,
    scratch: &mut [u64],
    output: &mut [u8],
    second_output: &mut [u8],
) -> Compared
    ensures one { one.new ≡ marked_for tables one.old }
    ensures other { other.new ≡ marked_for tables other.old }
    ensures written { WroteBoth (C.meaning kind.now) (accepted_calls tables one.old) (accepted_calls tables other.old) scratch.old scratch.new output.old output.new second_output.old second_output.new result.first result.second }
    ensures same { SameBytes result.first result.second output.new second_output.new result.same }
    ensures told_apart { ToldApart (accepted_calls tables one.old) (accepted_calls tables other.old) result.same }
    ensures tables { sizes_for result.tables ≡ sizes_for tables }
{
    let Written {
        answer: first,
        tables,
    } = write_steps(kind, one, tables, scratch, output);
    let Written {
        answer: second,
        tables,
    } = write_steps(kind, other, tables, scratch, second_output);
    let same = alike(first, second, output, second_output);
    Compared {
        first,
        second,
        same,
        tables,
    }
}
