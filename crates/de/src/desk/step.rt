//! One question, by the innermost place's state.

ghost use Rattle.std.specs.Prelude.{◌<◌, ◌≤◌};
ghost use Rattle.document.specs.Reader.{Reading, answer};
ghost use Rattle.nodes.specs.Stack.{top};
ghost use Rattle.de.specs.Moves.{sheets};
ghost use Rattle.de.specs.Steps.{on_question, plan, is_deep, Aims, Took};
ghost use Rattle.de.specs.Standing.{Stands, Told};

use super::Desk;
use crate::columns::Source;
use crate::heard::Heard;
use column::interface::Column;
use document::questions::{Answer, Question};
use document::refusals::Refusal;
use nodes::places::{MOST_OPEN, State};

impl Desk {
    /// The step: which record the question asks, by the innermost place's state, and what the state is once that has answered.
    // Stays: one match on the place's state and the question, as the project's rule has it for the writer's and the reader's step alike.
    fn take<C: Column>(
        &mut self,
        source: &Source<'_, C>,
        question: Question,
    ) -> Result<Heard, Refusal>
        requires some { 0 < self.old.places.depth }
        requires depth { self.old.places.depth ≤ 32 }
        requires aims { Aims source.now.input.now (sheets self.old.tables) (on_question (top self.old.places)) }
        ensures { Took (C.Column.meaning source.now.kind.now) source.now.input.now question (is_deep self.old) self.old self.new result (plan (top self.old.places) question) }
    {
        let deep = self.places.depth == MOST_OPEN;
        let place = &mut self.places.table[self.places.depth - 1];
        let (record, next) = match (place.state, question) {
            (
                State::Items { left: 0, .. }
                | State::Keys { left: 0, .. }
                | State::Fields { left: 0, .. }
                | State::Lone { left: 0, .. },
                Question::End,
            ) => {
                place.state = State::Closing;
                return Ok(Heard::shut(Answer::End));
            }
            (_, Question::End) => return Err(Refusal::Count),
            (
                State::Items { left: 0, .. }
                | State::Keys { left: 0, .. }
                | State::Fields { left: 0, .. }
                | State::Lone { left: 0, .. }
                | State::Closing,
                _,
            ) => return Err(Refusal::Count),
            (State::Root, _) => (1, State::Root),
            (State::Items { node, left }, _) => {
                let left = left - 1;
                (node, State::Items { node, left })
            }
            (State::Keys { node, left }, _) => {
                let left = left - 1;
                (node, State::Vals { node, left })
            }
            (State::Vals { node, left }, _) => (node + 1, State::Keys { node, left }),
            (State::Fields { node: field, left }, _) => {
                let (node, left) = (field + 1, left - 1);
                (field, State::Fields { node, left })
            }
            (State::Lone { node, left }, _) => {
                let left = left - 1;
                (node, State::Lone { node, left })
            }
            (State::One { node }, _) => (node, State::Closing),
        };
        let heard = self.tables.respond(source, record, question, deep)?;
        if let State::Root = next {
            // the root's place gives way to the one that its value opens
            place.state = heard.opened.unwrap_or(State::Closing);
            return Ok(Heard::shut(heard.answer));
        }
        place.state = next;
        Ok(heard)
    }

    /// One question.
    pub(crate) fn ask<C: Column>(
        &mut self,
        source: &Source<'_, C>,
        question: Question,
    ) -> Result<Answer, Refusal>
        requires { ∥ ((R : Reading) × Stands self.old source.now.input.now R) ∥₁ }
        ensures { (R : Reading) → Stands self.old source.now.input.now R → Told source.now.input.now R self.old self.new (answer (C.Column.meaning source.now.kind.now) R.store R.places question) result }
    {
        if self.places.depth == 0 {
            return Err(Refusal::Complete);
        }
        let heard = self.take(source, question)?;
        self.places.turn(heard.opened).unwrap();
        Ok(heard.answer)
    }
}
