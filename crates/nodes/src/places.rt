//! The open places.

ghost use Rattle.std.specs.Prelude.{◌≡◌, ◌+◌, ◌<◌, ◌≤◌, ◌⊎◌, [], ◌∷◌, false, length, is_ok, if◌then◌else◌, MatchOption, Ok, Err, nat_lt};
ghost use Rattle.nodes.specs.declared.places.Full.TheVariants.{Full as full};
ghost use Rattle.nodes.specs.declared.places.State.TheVariants.{Root as root_state};
ghost use Rattle.nodes.specs.Stack.{stack, top, settled, opening, has_room};

/// At most so many places are open.
pub const MOST_OPEN: usize = 32;

/// What an open place waits for: the record of the next value (of the keys, where a map value is next), and how many are to come.
#[derive(Clone, Copy)]
pub enum State {
    /// The document's one value.
    Root,
    /// Elements of a seq.
    Items { node: usize, left: u64 },
    /// Pairs of a map, a key next.
    Keys { node: usize, left: u64 },
    /// A map value, and then pairs.
    Vals { node: usize, left: u64 },
    /// Fields of a tuple.
    Fields { node: usize, left: u32 },
    /// The value of a `tuple 1`, which stands at the tuple's own node.
    // Stays: a count of one or none, as the other places have a count, so that `end` is one arm for all.
    Lone { node: usize, left: u32 },
    /// One value, which closes the place.
    One { node: usize },
    /// That value is on its way.
    Closing,
}

/// An open place.
#[derive(Clone, Copy)]
pub struct Place {
    pub state: State,
}

/// The open places: the first `depth` of the table, the innermost last. No place is open once the document is complete.
// Stays: a table with a depth beside it, since the project's rule is 32 places in a plain array and no heap.
#[derive(Drop)]
pub struct Places {
    pub table: [Place; MOST_OPEN],
    pub depth: usize,
}

/// Why a place is not opened.
#[derive(Clone, Copy, PartialEq, Eq, Debug)]
pub enum Full {
    /// As many places are open as there can be.
    Full,
}

impl Places {
    /// The root's place alone.
    pub fn start() -> Places
        ensures states { stack result ≡ root_state ∷ [] }
        ensures depth { result.depth ≡ 1 }
        ensures table { length result.table ≡ 32 }
    {
        Places {
            table: [Place { state: State::Root }; MOST_OPEN],
            depth: 1,
        }
    }

    /// The innermost place's state, none where no place is open.
    fn top(&self) -> Option<State>
        ensures { MatchOption result ((self.now.depth ≡ 0) ⊎ (length self.now.table < self.now.depth)) (λ s. (0 < self.now.depth) × (s ≡ top self.now)) }
    {
        let place = self.table.get(self.depth.checked_sub(1)?)?;
        Some(place.state)
    }

    /// Places close with their one value.
    pub fn settle(&mut self)
        ensures states { stack self.new ≡ settled (stack self.old) }
        ensures depth { self.new.depth ≤ self.old.depth }
        ensures table { self.new.table ≡ self.old.table }
    {
        while let Some(State::Closing) = self.top() {
            self.depth -= 1;
        }
    }

    /// Opens a place, as the innermost one. A refusal leaves the places as they were.
    pub fn open(&mut self, state: State) -> Result<(), Full>
        ensures answer { result ≡ (if nat_lt self.old.depth 32 then Ok tt else Err full) }
        ensures states { stack self.new ≡ (if nat_lt self.old.depth 32 then state ∷ stack self.old else stack self.old) }
        ensures depth { self.new.depth ≡ (if nat_lt self.old.depth 32 then self.old.depth + 1 else self.old.depth) }
        ensures table { length self.new.table ≡ length self.old.table }
        ensures same { is_ok result ≡ false → self.new ≡ self.old }
    {
        if self.depth >= MOST_OPEN {
            return Err(Full::Full);
        }
        self.table[self.depth] = Place { state };
        self.depth += 1;
        Ok(())
    }

    /// Opens a place, if there is one to open, and then closes the places that are done.
    /// It is refused where there is no room for that place, and then nothing changes.
    pub fn turn(&mut self, opened: Option<State>) -> Result<(), Full>
        ensures answer { result ≡ (if has_room opened self.old.depth then Ok tt else Err full) }
        ensures states { stack self.new ≡ (if has_room opened self.old.depth then settled (opening opened (stack self.old)) else stack self.old) }
        ensures depth { self.new.depth ≤ length (opening opened []) + self.old.depth }
        ensures most { self.old.depth ≤ 32 → self.new.depth ≤ 32 }
        ensures table { length self.new.table ≡ length self.old.table }
        ensures same { is_ok result ≡ false → self.new ≡ self.old }
    {
        if let Some(state) = opened {
            self.open(state)?;
        }
        self.settle();
        Ok(())
    }
}
