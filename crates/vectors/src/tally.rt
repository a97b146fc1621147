//! How many lines were compared, and what came of them.

ghost use Rattle.std.specs.Prelude.{◌≡◌, ◌+◌, ◌-◌, ◌^◌, ◌<◌, OnOk};
ghost use Rattle.vectors.specs.Tallies.{all_named, one_more, both_named, one_same, one_unlisted, names_after};

use crate::known::{Known, Names};
use crate::verdict::Verdict;
use anyhow::Context;
use std::fmt;

/// The lines that were compared: those where the codec agrees, those that are a difference with a name, and the others.
#[derive(Clone, Copy)]
pub struct Tally {
    pub compared: u64,
    pub same: u64,
    pub unlisted: u64,
    pub names: Names,
    ghost adds_up: { compared ≡ same + unlisted + all_named names },
}

impl Tally {
    /// No line yet.
    pub(crate) fn new() -> Tally
        ensures { result.compared ≡ 0 }
    {
        Tally {
            compared: 0,
            same: 0,
            unlisted: 0,
            names: Names::default(),
        }
    }

    /// Counts one line.
    pub(crate) fn count(&mut self, verdict: Verdict) -> anyhow::Result<()>
        ensures compared { OnOk result (self.new.compared ≡ self.old.compared + 1) }
        ensures same { OnOk result (self.new.same ≡ self.old.same + one_same verdict) }
        ensures unlisted { OnOk result (self.new.unlisted ≡ self.old.unlisted + one_unlisted verdict) }
        ensures names { OnOk result (self.new.names ≡ names_after self.old.names verdict) }
    {
        let compared = self.compared.checked_add(1).context("too many lines")?;
        *self = counted(*self, compared, verdict);
        Ok(())
    }

    /// Adds the lines of another tally.
    pub(crate) fn add(&mut self, other: &Tally) -> anyhow::Result<()>
        ensures compared { OnOk result (self.new.compared ≡ self.old.compared + other.now.compared) }
        ensures same { OnOk result (self.new.same ≡ self.old.same + other.now.same) }
        ensures unlisted { OnOk result (self.new.unlisted ≡ self.old.unlisted + other.now.unlisted) }
        ensures names { OnOk result (self.new.names ≡ both_named self.old.names other.now.names) }
    {
        let compared = self
            .compared
            .checked_add(other.compared)
            .context("too many lines")?;
        *self = Tally {
            compared,
            same: self.same + other.same,
            unlisted: self.unlisted + other.unlisted,
            names: Names {
                unit_beside: self.names.unit_beside + other.names.unit_beside,
                none_beside: self.names.none_beside + other.names.none_beside,
                early_end: self.names.early_end + other.names.early_end,
                too_many: self.names.too_many + other.names.too_many,
                other_kind: self.names.other_kind + other.names.other_kind,
                sums: self.names.sums + other.names.sums,
                places: self.names.places + other.names.places,
                tables: self.names.tables + other.names.tables,
            },
        };
        Ok(())
    }
}

/// A tally with one line more, where so many are compared then.
fn counted(tally: Tally, compared: u64, verdict: Verdict) -> Tally
    requires { compared ≡ tally.compared + 1 }
    ensures compared { result.compared ≡ compared }
    ensures same { result.same ≡ tally.same + one_same verdict }
    ensures unlisted { result.unlisted ≡ tally.unlisted + one_unlisted verdict }
    ensures names { result.names ≡ names_after tally.names verdict }
{
    let Tally {
        same,
        unlisted,
        names,
        ..
    } = tally;
    match verdict {
        Verdict::Same => Tally {
            compared,
            same: same + 1,
            unlisted,
            names,
        },
        Verdict::Unlisted => Tally {
            compared,
            same,
            unlisted: unlisted + 1,
            names,
        },
        Verdict::Listed(known) => Tally {
            compared,
            same,
            unlisted,
            names: named(names, known),
        },
    }
}

/// One more difference of this name.
fn named(names: Names, known: Known) -> Names
    requires { all_named names < 2 ^ 64 - 1 }
    ensures one { result ≡ one_more names known }
    ensures all { all_named result ≡ all_named names + 1 }
{
    match known {
        Known::UnitBeside => Names {
            unit_beside: names.unit_beside + 1,
            ..names
        },
        Known::NoneBeside => Names {
            none_beside: names.none_beside + 1,
            ..names
        },
        Known::EarlyEnd => Names {
            early_end: names.early_end + 1,
            ..names
        },
        Known::TooMany => Names {
            too_many: names.too_many + 1,
            ..names
        },
        Known::OtherKind => Names {
            other_kind: names.other_kind + 1,
            ..names
        },
        Known::Sums => Names {
            sums: names.sums + 1,
            ..names
        },
        Known::Places => Names {
            places: names.places + 1,
            ..names
        },
        Known::Tables => Names {
            tables: names.tables + 1,
            ..names
        },
    }
}

impl fmt::Display for Tally {
    fn fmt<W: fmt::Write>(&self, f: &mut fmt::Formatter<W>) -> fmt::Result {
        let Tally {
            compared,
            same,
            unlisted,
            names,
        } = self;
        write!(f, "{compared} compared, {same} the same")?;
        for (count, known) in names.counts() {
            if count > 0 {
                write!(f, ", {count} {known}")?;
            }
        }
        write!(f, ", {unlisted} on no list")
    }
}
