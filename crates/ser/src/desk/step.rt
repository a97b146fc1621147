//! One call, by the innermost place's state.

ghost use Rattle.std.specs.Prelude.{◌≡◌, ◌<◌};
ghost use Rattle.document.specs.Said.{said};
ghost use Rattle.document.specs.Verdict.{Real};
ghost use Rattle.nodes.specs.Stack.{top};
ghost use Rattle.ser.specs.Moves.{sheets};
ghost use Rattle.ser.specs.Steps.{is_deep, outcome, calling, Took, Did};
ghost use Rattle.ser.specs.Safe.{Safe};

use super::Desk;
use crate::loads::is_opening;
use document::calls::Call;
use document::refusals::Refusal;
use nodes::places::{MOST_OPEN, State};

impl Desk {
    /// The step: what the call does to the innermost place, and to the tables.
    // Stays: one match on the place's state and the call, as the project's rule has it for the writer's and the reader's step alike.
    fn take(&mut self, call: Call, deep: bool) -> Result<Option<State>, Refusal>
        requires safe { Safe self.old }
        requires some { 0 < self.old.places.depth }
        ensures { Took self.old self.new result (outcome deep (sheets self.old.tables) (top self.old.places) (said call.entry)) }
    {
        let place = &mut self.places.table[self.places.depth - 1];
        // Where the value stands, and the place's state once it is counted; the root's place gives way to the one that its value opens.
        let (node, after) = match (place.state, call) {
            (
                State::Items { left: 0, .. }
                | State::Keys { left: 0, .. }
                | State::Fields { left: 0, .. }
                | State::Lone { left: 0, .. },
                Call::End,
            ) => {
                place.state = State::Closing;
                return Ok(None);
            }
            (_, Call::End) => return Err(Refusal::Count),
            (
                State::Items { left: 0, .. }
                | State::Keys { left: 0, .. }
                | State::Fields { left: 0, .. }
                | State::Lone { left: 0, .. }
                | State::Closing,
                _,
            ) => return Err(Refusal::Count),
            (State::Root, _) => (1, None),
            (
                State::Items { .. }
                | State::Keys { .. }
                | State::Vals { .. }
                | State::Fields { .. }
                | State::Lone { .. }
                | State::One { .. },
                _,
            ) if deep => return Err(Refusal::Depth),
            (State::Items { node, left }, _) => {
                let left = left - 1;
                (node, Some(State::Items { node, left }))
            }
            (State::Keys { node, left }, _) => {
                let left = left - 1;
                (node, Some(State::Vals { node, left }))
            }
            (State::Vals { node, left }, _) => (node + 1, Some(State::Keys { node, left })),
            (State::Fields { node, left }, _) => {
                let (next, left) = (node + 1, left - 1);
                (node, Some(State::Fields { node: next, left }))
            }
            (State::Lone { node, left }, _) => {
                let left = left - 1;
                (node, Some(State::Lone { node, left }))
            }
            (State::One { node }, _) => (node, Some(State::Closing)),
        };
        let opened = self.tables.enter(node, call)?;
        let Some(state) = after else {
            place.state = opened.unwrap_or(State::Closing);
            return Ok(None);
        };
        place.state = state;
        Ok(opened)
    }

    /// Whether the call would open a place too many.
    fn is_deep(&self, call: Call) -> bool
        ensures { result ≡ is_deep self.now (said call.entry) }
    {
        self.places.depth == MOST_OPEN && is_opening(call)
    }

    /// One call.
    pub(crate) fn call(&mut self, call: Call) -> Result<(), Refusal>
        requires safe { Safe self.old }
        ensures did { Did self.old self.new result (calling self.old (said call.entry)) }
        ensures real { Real (said call.entry) }
    {
        let deep = self.is_deep(call);
        if self.places.depth == 0 {
            return Err(Refusal::Complete);
        }
        let opened = self.take(call, deep)?;
        self.places.turn(opened).unwrap();
        Ok(())
    }
}
