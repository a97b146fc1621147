//! A question at the record of a node.

ghost use Rattle.std.specs.Prelude.{◌≡◌, true, List, nat_lt, vec_len};
ghost use Rattle.document.specs.Calls.{Cell};
ghost use Rattle.document.specs.Reader.{Ask};
ghost use Rattle.de.specs.Moves.{sheets, lacks_child};
ghost use Rattle.de.specs.Answered.{question_of};
ghost use Rattle.de.specs.Served.{Readable, Consulted, Responded};
ghost use Rattle.de.specs.Hearing.{HearSafe, HeardIn, Heard as heard};

use crate::columns::Source;
use crate::heard::{Heard, index_of, letters_of, mark_of, opens_any, opens_place, worth};
use crate::store::Tables;
use crate::view::Sight;
use column::interface::Column;
use document::questions::{Answer, Question};
use document::refusals::Refusal;
use nodes::places::State;

impl Tables {
    /// The answer that the node's next value makes.
    #[inline(always)]
    fn hear(&self, seen: Sight, question: Question) -> Result<Answer, Refusal>
        requires { HearSafe (sheets self.now) seen question }
        ensures { (a : Ask) (cs : List Cell) → question ≡ question_of a → HeardIn (sheets self.now) seen a cs → heard a cs seen.text result }
    {
        if seen.done == seen.count {
            return Err(Refusal::Count);
        }
        let number = match question {
            Question::Tuple(_) | Question::Unit | Question::End => 0,
            _ => self.slots[seen.first + seen.done as usize],
        };
        worth(question, number, seen.text)
    }

    /// Whether an index is new, and there is no record for its child.
    fn lacks_child(&self, child: usize, index: Option<u32>) -> bool
        ensures { result ≡ lacks_child (sheets self.now) child index }
    {
        index.is_some() && child == 0 && self.lacks_nodes(1)
    }

    /// A question that asks a value of the node at the record r; `deep` tells that no further place can be opened.
    // Stays: `inline(always)`, here and in what it uses, so that each row of `respond` is compiled by itself, without the tests that its question leaves empty.
    #[inline(always)]
    fn consult<C: Column>(
        &mut self,
        source: &Source<'_, C>,
        r: usize,
        question: Question,
        deep: bool,
    ) -> Result<Heard, Refusal>
        requires readable { Readable source.now.input.now (sheets self.old) r }
        requires asks { (a : Ask) × (question ≡ question_of a) }
        requires rooted { nat_lt 1 (vec_len self.old.nodes) ≡ true }
        ensures { Consulted (C.Column.meaning source.now.kind.now) source.now.input.now r question deep (sheets self.old) (sheets self.new) result }
    {
        let mark = mark_of(question);
        let gain = self.look(source, r, mark)?;
        let seen = self.sight(r, gain);
        let answer = self.hear(seen, question)?;
        if deep && opens_place(answer) {
            return Err(Refusal::Depth);
        }
        let index = index_of(answer);
        let child = self.branch(r, index);
        if self.lacks_child(child, index) {
            return Err(Refusal::Nodes);
        }
        self.take_in(r, mark, seen, gain, letters_of(answer));
        let child = self.branch_out(r, child, index);
        let opened = self.opened(r, child, question, answer);
        Ok(Heard { answer, opened })
    }

    /// A question at the record r: refused, the tables are as they were, but for slots that are not taken.
    pub(crate) fn respond<C: Column>(
        &mut self,
        source: &Source<'_, C>,
        r: usize,
        question: Question,
        deep: bool,
    ) -> Result<Heard, Refusal>
        requires { Readable source.now.input.now (sheets self.old) r }
        ensures { Responded (C.Column.meaning source.now.kind.now) source.now.input.now r question deep (sheets self.old) (sheets self.new) result }
    {
        if deep && opens_any(question) {
            return Err(Refusal::Depth);
        }
        if self.nodes.len() < 2 {
            return Err(Refusal::Nodes);
        }
        match question {
            Question::Unit => Ok(Heard::shut(Answer::Unit)),
            Question::End => Err(Refusal::Count),
            Question::Tuple(1) => Ok(Heard {
                answer: Answer::Tuple,
                opened: Some(State::Lone { node: r, left: 1 }),
            }),
            Question::Scalar(kind) => self.consult(source, r, Question::Scalar(kind), deep),
            Question::Text => self.consult(source, r, Question::Text, deep),
            Question::Option => self.consult(source, r, Question::Option, deep),
            Question::Variant => self.consult(source, r, Question::Variant, deep),
            Question::Seq { no_size } => self.consult(source, r, Question::Seq { no_size }, deep),
            Question::Map { no_size } => self.consult(source, r, Question::Map { no_size }, deep),
            Question::Tuple(n) => self.consult(source, r, Question::Tuple(n), deep),
        }
    }
}
