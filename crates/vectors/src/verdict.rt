//! Whether the codec agrees with the reference, and which difference it is where it does not.

ghost use Rattle.std.specs.Prelude.{◌≡◌, ◌↔◌, Decides, IfSome, false, true};
ghost use Rattle.vectors.specs.declared.verdict.Verdict.TheVariants.{Same, Listed, Unlisted};
ghost use Rattle.vectors.specs.declared.known.Known.{Known as Name};
ghost use Rattle.vectors.specs.Verdicts.{AgreesInWriting, CountsRefused, CountsInWriting, EndsAlike, AgreesInReading, CountsInReading};

use crate::expected::{Ending, Read, Written};
use crate::known::Known;
use crate::reading::{Heard, Next};
use crate::writing::{Beside, RefusedCall, Wrote};
use document::limits::{LIMIT, MOST_CELLS, MOST_NODES, MOST_TEXT};
use document::refusals::Refusal;

/// So many places can be open at once.
const MOST_PLACES: usize = 32;

/// What is to be said of a line.
#[derive(Clone, Copy)]
pub enum Verdict {
    Same,
    Listed(Known),
    Unlisted,
}

/// A verdict, where lines that do not agree may be a difference that has a name.
fn judged(agrees: bool, known: Option<Known>) -> Verdict
    ensures same { (result ≡ Same) ↔ (agrees ≡ true) }
    ensures listed { (k : Name) → result ≡ Listed k → known ≡ Some k }
    ensures unlisted { (result ≡ Unlisted) ↔ ((agrees ≡ false) × (known ≡ None)) }
{
    match (agrees, known) {
        (true, _) => Verdict::Same,
        (false, Some(known)) => Verdict::Listed(known),
        (false, None) => Verdict::Unlisted,
    }
}

/// Whether the writer did what the reference did: the same bytes, or a variant above 255 refused.
fn agrees_in_writing(reference: &Written, wrote: &Wrote) -> bool
    ensures { Decides result (AgreesInWriting reference.now wrote.now) }
{
    match (reference, wrote) {
        (Written::Bytes(bytes), Wrote::Bytes(came)) => bytes == came,
        (Written::Error, Wrote::Refused(refused)) => refused.refusal == Refusal::Index,
        _ => false,
    }
}

/// The difference that a refused call is.
fn known_in_writing(reference: &Written, refused: RefusedCall) -> Option<Known>
    ensures { IfSome result (λ k. CountsRefused k reference.now refused) }
{
    let grounds = refused.grounds;
    match (reference, refused.refusal) {
        (Written::Bytes(_) | Written::LengthMismatch, Refusal::Kind) => match grounds.beside {
            Some(Beside::Unit) => Some(Known::UnitBeside),
            Some(Beside::None) => Some(Known::NoneBeside),
            None => None,
        },
        (Written::Bytes(_) | Written::TypeChanged, Refusal::Count) if grounds.is_end => {
            Some(Known::EarlyEnd)
        }
        (Written::Bytes(_), Refusal::Depth) if grounds.places == MOST_PLACES => Some(Known::Places),
        (Written::Bytes(_), Refusal::Sum) if grounds.lengths >= LIMIT => Some(Known::Sums),
        (Written::Bytes(_), Refusal::Nodes) if grounds.records >= MOST_NODES as u64 => {
            Some(Known::Tables)
        }
        (Written::Bytes(_), Refusal::Cells) if grounds.cells >= MOST_CELLS as u64 => {
            Some(Known::Tables)
        }
        (Written::Bytes(_), Refusal::TextTable) if grounds.letters > MOST_TEXT as u64 => {
            Some(Known::Tables)
        }
        (Written::TypeChanged, Refusal::Kind) => Some(Known::OtherKind),
        (Written::LengthMismatch, Refusal::Count) if !grounds.is_end => Some(Known::TooMany),
        _ => None,
    }
}

/// What is to be said of a list of calls.
pub(crate) fn of_writing(reference: &Written, wrote: &Wrote) -> Verdict
    ensures same { (result ≡ Same) ↔ AgreesInWriting reference.now wrote.now }
    ensures listed { (k : Name) → result ≡ Listed k → CountsInWriting k reference.now wrote.now }
{
    let known = match wrote {
        Wrote::Refused(refused) => known_in_writing(reference, *refused),
        _ => None,
    };
    judged(agrees_in_writing(reference, wrote), known)
}

/// Whether the reader ended as the reference did: an `Err` is a refusal by what the bytes say.
fn ends_alike(ending: Ending, next: Next) -> bool
    ensures { Decides result (EndsAlike ending next) }
{
    match (ending, next) {
        (Ending::Whole, Next::Finish(Ok(()))) => true,
        (Ending::Left, Next::Finish(Err(refusal))) => refusal == Refusal::Left,
        (Ending::Unfit, Next::Finish(Err(refusal))) => refusal == Refusal::Early,
        (Ending::Unfit, Next::Refused { refusal, .. }) => {
            matches!(refusal, Refusal::Complete | Refusal::Count)
        }
        (Ending::Error, Next::Refused { refusal, .. }) => matches!(
            refusal,
            Refusal::Short { .. }
                | Refusal::Bad { .. }
                | Refusal::Sum
                | Refusal::Text
                | Refusal::Option
                | Refusal::NoSize
        ),
        _ => false,
    }
}

/// Whether the reader answered what the reference did.
fn agrees_in_reading(reference: &Read, heard: Heard) -> bool
    ensures { Decides result (AgreesInReading reference.now heard) }
{
    heard.count == reference.values.len() && ends_alike(reference.ending, heard.next)
}

/// The difference that a refused question is.
fn known_in_reading(reference: &Read, heard: Heard) -> Option<Known>
    ensures { IfSome result (λ k. CountsInReading k reference.now heard) }
{
    let Next::Refused { refusal, grounds } = heard.next else {
        return None;
    };
    let ended = heard.count == reference.values.len();
    match refusal {
        Refusal::Depth if grounds.places == MOST_PLACES => Some(Known::Places),
        Refusal::Nodes if grounds.records >= MOST_NODES as u64 => Some(Known::Tables),
        Refusal::Cells if ended && matches!(reference.ending, Ending::Error) => Some(Known::Tables),
        Refusal::Cells if grounds.input >= MOST_CELLS => Some(Known::Tables),
        Refusal::Kind if ended && matches!(reference.ending, Ending::TypeChanged) => {
            Some(Known::OtherKind)
        }
        _ => None,
    }
}

/// What is to be said of a list of questions.
pub(crate) fn of_reading(reference: &Read, heard: Heard) -> Verdict
    ensures same { (result ≡ Same) ↔ AgreesInReading reference.now heard }
    ensures listed { (k : Name) → result ≡ Listed k → CountsInReading k reference.now heard }
{
    judged(
        agrees_in_reading(reference, heard),
        known_in_reading(reference, heard),
    )
}
