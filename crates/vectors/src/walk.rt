//! What lists of calls and questions come to: open places, lengths and node records.

ghost use Rattle.std.specs.Prelude.{◌≡◌};
ghost use Rattle.vectors.specs.Walks.{length_told, cells_taken, most_records};

use crate::calls::Told;
use document::calls::Call;
use document::limits::LONG;
use document::questions::Question;
use std::alloc::{AllocError, Global};

/// An open place: one that `end` closes, or one that closes with its value.
#[derive(Clone, Copy)]
enum Place {
    Ended,
    Closing,
}

/// How many places a list of calls leaves open.
pub(crate) fn open_places(alloc: Global, calls: &[Told]) -> Result<usize, AllocError> {
    let mut open: Vec<Place> = Vec::new(alloc);
    for told in calls {
        match told.call() {
            Call::Seq(_) | Call::Map(_) | Call::Tuple(_) => open.push(Place::Ended)?,
            Call::Some | Call::Variant(_) => open.push(Place::Closing)?,
            Call::End => {
                open.pop();
                close_whole(&mut open);
            }
            _ => close_whole(&mut open),
        }
    }
    Ok(open.len())
}

/// Closes the innermost places that close with their value, which is whole.
fn close_whole(open: &mut Vec<Place>) {
    let last = open.iter().rposition(|place| matches!(place, Place::Ended));
    open.truncate(last.map_or(0, |last| last.saturating_add(1)));
}

/// All lengths that a list of calls tells, added up.
pub(crate) fn lengths(calls: &[Told]) -> u64 {
    let mut sum: u64 = 0;
    for told in calls {
        sum = sum.saturating_add(length(told.call()));
    }
    sum
}

/// The length that a call tells.
fn length(call: Call<'_>) -> u64
    ensures { result ≡ length_told call.entry }
{
    match call {
        Call::Seq(n) | Call::Map(n) => n,
        Call::Text(text) => text.len() as u64,
        _ => 0,
    }
}

/// The cells that a list of calls takes.
pub(crate) fn cells(calls: &[Told]) -> u64 {
    let mut sum: u64 = 0;
    for told in calls {
        sum = sum.saturating_add(cells_of(told.call()));
    }
    sum
}

/// The cells that a call takes: one for a number, an index or a length, and two for a length of 255 or more.
fn cells_of(call: Call<'_>) -> u64
    ensures { result ≡ cells_taken call.entry }
{
    match call {
        Call::Unit | Call::Tuple(_) | Call::End => 0,
        _ if length(call) >= LONG => 2,
        _ => 1,
    }
}

/// The bytes of all texts of a list of calls.
pub(crate) fn letters(calls: &[Told]) -> u64 {
    let mut sum: u64 = 0;
    for told in calls {
        if let Call::Text(text) = told.call() {
            sum = sum.saturating_add(text.len() as u64);
        }
    }
    sum
}

/// The most node records that these calls can take, the root's among them.
pub(crate) fn records_of_calls(calls: &[Told]) -> u64 {
    let mut sum: u64 = 1;
    for told in calls {
        sum = sum.saturating_add(records(told.call().question(false)));
    }
    sum
}

/// The most node records that these questions can take, the root's among them.
pub(crate) fn records_of_questions(questions: &[Question]) -> u64 {
    let mut sum: u64 = 1;
    for question in questions {
        sum = sum.saturating_add(records(*question));
    }
    sum
}

/// The most node records that a question, or its call, can take.
fn records(question: Question) -> u64
    ensures { result ≡ most_records question }
{
    match question {
        Question::Seq { .. } | Question::Option | Question::Variant => 1,
        Question::Map { .. } => 2,
        Question::Tuple(n) => u64::from(n),
        _ => 0,
    }
}
