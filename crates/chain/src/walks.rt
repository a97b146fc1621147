//! The walk over the records of a chain.

ghost use Rattle.std.specs.Prelude.{◌≡◌, ◌<◌, [], ◌∷◌, map, length, MatchOption};
ghost use Rattle.chain.specs.Chains.{course};
ghost use Rattle.chain.specs.Walks.{table_of, place_of};
ghost use Rattle.std.specs.Iterator.{at_most};

use crate::Linked;

/// The records of a chain, one after another. A chain rises: where an index for the next record is not greater, the walk ends. A walk that has ended does not begin again.
#[derive(Drop)]
pub struct Walk<'a, R> {
    pub(crate) table: &'a [R],
    pub(crate) at: usize,
}

impl<'a, R: Linked> Iterator for Walk<'a, R> {
    type Item = usize;

    ghost next_gives = { λ s r t. (table_of t ≡ table_of s) × MatchOption r ((course (map R.next_of (table_of s)) (place_of s) ≡ []) × (place_of t ≡ place_of s)) (λ k. (course (map R.next_of (table_of s)) (place_of s) ≡ k ∷ course (map R.next_of (table_of t)) (place_of t)) × (0 < k) × (k < length (table_of s))) };

    ghost remaining = { λ s. at_most (length (course (map R.next_of (table_of s)) (place_of s))) };

    fn next(&mut self) -> Option<usize> {
        let at = self.at;
        if at == 0 || at >= self.table.len() {
            return None;
        }
        let next = self.table[at].next();
        self.at = if next > at { next } else { 0 };
        Some(at)
    }
}
