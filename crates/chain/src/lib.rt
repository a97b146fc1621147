//! Chains: records of a table, each with the index of the next one; record 0 is no record, and ends every chain.
#![tactic(auto)]

ghost use Rattle.std.specs.Prelude.{◌≡◌, ℕ, ◌<◌, List, [], ◌∷◌, ◌++◌, map, length, IfOk, if◌then◌else◌, Ok, Err};
ghost use Rattle.std.specs.List.{AllByRecursion};
ghost use Rattle.chain.specs.declared.Fault.TheVariants.{Outside};
ghost use Rattle.chain.specs.Chains.{Runs, Out, last_of, within, longer, appended};
ghost use Rattle.chain.specs.Walks.{table_of, place_of};

pub use crate::walks::Walk;

mod walks;

/// A record that names the next one of its chain; 0 ends the chain.
// Stays: record 0 of the caller's table is unused by the project's rule, so 0 says "none" here, in a chain and in a search; an `Option` of an index would take twice the room in each record.
pub trait Linked: Copy {
    // the index that a record has for the next one
    ghost next_of: { Self → ℕ };

    // the record with another index for the next one
    ghost with_next: { Self → ℕ → Self };

    /// The index of the next record, 0 where this is the last.
    fn next(&self) -> usize
        ensures { result ≡ next_of self.now };

    /// Puts another index for the next record.
    fn link(&mut self, next: usize)
        ensures { self.new ≡ with_next self.old next };

    ghost linked: { (r : Self) (n : ℕ) → next_of (with_next r n) ≡ n };
}

/// A chain: its first and its last record, both 0 where it has none.
#[derive(Clone, Copy, PartialEq, Eq, Debug)]
pub struct Chain {
    pub first: usize,
    pub last: usize,
}

/// Why a record is not appended.
#[derive(Clone, Copy, PartialEq, Eq, Debug)]
pub enum Fault {
    /// The record's place, or the chain's last record, lies outside the table, or the place is 0.
    Outside,
}

impl Chain {
    /// The chain of no record.
    pub fn empty() -> Chain
        ensures { result ≡ record { first = 0; last = 0 } }
    {
        Chain { first: 0, last: 0 }
    }
}

/// Puts a record at `place`, as the last of the chain, and answers the longer chain.
/// A refusal leaves the table as it was.
pub fn append<R: Linked>(
    table: &mut [R],
    chain: Chain,
    place: usize,
    fresh: R,
) -> Result<Chain, Fault>
    ensures answer { result ≡ (if within (length table.old) chain place then Ok (longer chain place) else Err Outside) }
    ensures table { table.new ≡ (if within (length table.old) chain place then appended R.with_next table.old chain.last place fresh else table.old) }
    ensures longer { IfOk result (λ c. (is : List ℕ) → Runs (map R.next_of table.old) chain.first is → last_of is ≡ chain.last → AllByRecursion (λ i. i < place) is → Runs (map R.next_of table.new) c.first (is ++ place ∷ [])) }
    ensures others { (head : ℕ) (is : List ℕ) → Runs (map R.next_of table.old) head is → Out chain.last is → Out place is → Runs (map R.next_of table.new) head is }
{
    if place == 0 || place >= table.len() || chain.last >= table.len() {
        return Err(Fault::Outside);
    }
    let mut end = fresh;
    end.link(0);
    table[place] = end;
    if chain.last == 0 {
        return Ok(Chain {
            first: place,
            last: place,
        });
    }
    table[chain.last].link(place);
    Ok(Chain {
        last: place,
        ..chain
    })
}

/// A walk over the records of a chain, from its first one on.
pub fn walk<R: Linked>(table: &[R], chain: Chain) -> Walk<'_, R>
    ensures table { table_of result ≡ table.now }
    ensures place { place_of result ≡ chain.first }
{
    Walk {
        table,
        at: chain.first,
    }
}
