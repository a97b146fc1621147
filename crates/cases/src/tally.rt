//! How many answers were compared.

ghost use Rattle.std.specs.Prelude.{◌≡◌, ◌++◌, if◌then◌else◌, codes, decimal, Some};
ghost use Rattle.cases.specs.Tallies.{saturated, AddsTally};

use std::fmt;
use std::ops::AddAssign;

/// The answers that were compared, and those of them that differed.
#[derive(Clone, Copy, Default)]
pub struct Tally {
    pub compared: u64,
    pub differed: u64,
}

impl Tally {
    pub(crate) fn count(&mut self, same: bool)
        ensures compared { self.new.compared ≡ saturated self.old.compared 1 }
        ensures differed { self.new.differed ≡ (if same then self.old.differed else saturated self.old.differed 1) }
    {
        self.compared = self.compared.saturating_add(1);
        if !same {
            self.differed = self.differed.saturating_add(1);
        }
    }
}

impl AddAssign for Tally {
    ghost add_assign_gives = { AddsTally };

    fn add_assign(&mut self, other: Tally) {
        self.compared = self.compared.saturating_add(other.compared);
        self.differed = self.differed.saturating_add(other.differed);
    }
}

impl fmt::Display for Tally {
    ghost output = { λ tally. Some (decimal tally.compared ++ codes " compared, " ++ decimal tally.differed ++ codes " differ") };

    fn fmt<W: fmt::Write>(&self, f: &mut fmt::Formatter<W>) -> fmt::Result {
        let Tally { compared, differed } = self;
        write!(f, "{compared} compared, {differed} differ")
    }
}
