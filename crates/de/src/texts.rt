//! The texts that answers name.

ghost use Rattle.std.specs.Prelude.{◌≡◌, ◌+◌, ◌<◌, ◌≤◌, length, take, drop, IfOk, IfErr};

use document::refusals::Refusal;

/// The part of the input that an answer to a text question names, by its place and its length; `Past` where it passes the input.
pub fn text_at(input: &[u8], place: usize, size: usize) -> Result<&[u8], Refusal>
    ensures part { IfOk result (λ text. (place + size ≤ length input.now) × (text.now ≡ take size (drop place input.now))) }
    ensures past { IfErr result (λ refusal. (refusal ≡ Refusal.Past) × (length input.now < place + size)) }
{
    let rest = input.get(place..).ok_or(Refusal::Past)?;
    rest.get(..size).ok_or(Refusal::Past)
}
