//! Documents, made up call by call.

ghost use Rattle.std.specs.Prelude.{◌≡◌, false, [], ◌∷◌, ◌++◌, OnOk};

use crate::chance::Chance;
use crate::plan::Shape;
use document::calls::Call;
use replay::steps::Step;
use std::alloc::{AllocError, Global};

/// Twelve bytes, of which texts in ASCII are made.
const PLAIN: &str = "a quick fox ";

/// Twelve bytes of characters that take one to four bytes, of which other texts are made.
const SCRIPTS: &str = "aé€𝄞xy";

/// So many times twelve bytes is a text at most.
const MOST_PARTS: u32 = 34;

/// The letters that the texts of a shape begin.
pub(crate) fn letters_of(heap: Global, shape: Shape) -> Result<Vec<u8>, AllocError> {
    let part = match shape {
        Shape::Scripts => SCRIPTS,
        _ => PLAIN,
    };
    let mut letters = Vec::new(heap);
    for _ in 0..MOST_PARTS {
        letters.extend_from_slice(part.as_bytes())?;
    }
    Ok(letters)
}

/// The calls so far, and where texts and numbers come from.
#[derive(Drop)]
struct Script<'a> {
    letters: &'a [u8],
    chance: Chance,
    steps: Vec<Step<'a>>,
}

impl<'a> Script<'a> {
    fn say(&mut self, call: Call<'a>) -> Result<(), AllocError>
        ensures { OnOk result (self.new.steps.items ≡ self.old.steps.items ++ record { call = call.entry; no_size = false; accepted = false } ∷ []) }
    {
        self.steps.push(Step::of(call))?;
        Ok(())
    }

    /// A text of so many bytes.
    fn text(&mut self, size: u32) -> Result<(), AllocError> {
        let end = self.letters.len().min(size as usize);
        self.say(Call::Text(&self.letters[..end]))
    }

    /// A card: its number.
    fn card(&mut self) -> Result<(), AllocError> {
        let number = self.chance.below(52);
        self.say(Call::U8(number as u8))
    }

    /// A card that opens the hand of a seat, or none.
    fn grant(&mut self, opens: bool) -> Result<(), AllocError> {
        self.card()?;
        if !opens {
            return self.say(Call::None);
        }
        let seat = self.chance.below(8);
        self.say(Call::Some)?;
        self.say(Call::U8(seat as u8))
    }

    /// A seat: its name, five cards, and what five cards grant, of which three open a hand. These are 25 calls.
    fn seat(&mut self) -> Result<(), AllocError> {
        self.say(Call::Tuple(3))?;
        let size = 3 + self.chance.below(6);
        self.text(size)?;
        self.say(Call::Seq(5))?;
        for _ in 0..5 {
            self.card()?;
        }
        self.say(Call::End)?;
        self.say(Call::Map(5))?;
        for opens in [true, false, true, true, false] {
            self.grant(opens)?;
        }
        self.say(Call::End)?;
        self.say(Call::End)
    }

    /// Five numbers of different kinds. These are seven calls.
    fn numbers(&mut self) -> Result<(), AllocError> {
        let [first, second, third, fourth] = [
            self.chance.next(),
            self.chance.next(),
            self.chance.next(),
            self.chance.next(),
        ];
        self.say(Call::Tuple(5))?;
        self.say(Call::Bool(first % 2 == 1))?;
        self.say(Call::U16((second % 65_536) as u16))?;
        self.say(Call::U32(third))?;
        self.say(Call::I64(i64::from(fourth) - i64::from(first)))?;
        self.say(Call::F32(fourth))?;
        self.say(Call::End)
    }

    /// An element of a document of this shape.
    fn item(&mut self, shape: Shape) -> Result<(), AllocError> {
        match shape {
            Shape::Seats => self.seat(),
            Shape::Numbers => self.numbers(),
            Shape::Plain | Shape::Scripts => {
                let parts = self.chance.below(MOST_PARTS + 1);
                self.text(12 * parts)
            }
        }
    }
}

/// The calls of a document of this shape, with so many elements.
pub(crate) fn steps_of(
    heap: Global,
    shape: Shape,
    items: u32,
    letters: &[u8],
) -> Result<Vec<Step<'_>>, AllocError> {
    let mut script = Script {
        letters,
        chance: Chance::new(),
        steps: Vec::new(heap),
    };
    script.say(Call::Seq(u64::from(items)))?;
    for _ in 0..items {
        script.item(shape)?;
    }
    script.say(Call::End)?;
    Ok(script.steps)
}
