//! The differences that have a name, and how many there were of each.

use std::fmt;

/// A difference by its name in the list of differences.
#[derive(Clone, Copy)]
pub enum Known {
    UnitBeside,
    NoneBeside,
    EarlyEnd,
    TooMany,
    OtherKind,
    Sums,
    Places,
    Tables,
}

impl fmt::Display for Known {
    fn fmt<W: fmt::Write>(&self, f: &mut fmt::Formatter<W>) -> fmt::Result {
        let name = match self {
            Known::UnitBeside => "unit and another kind at one node",
            Known::NoneBeside => "none beside a variant 0 that is no unit",
            Known::EarlyEnd => "early end",
            Known::TooMany => "a value too many",
            Known::OtherKind => "another kind",
            Known::Sums => "the writer's limit on sums",
            Known::Places => "32 open places",
            Known::Tables => "tables that can be full",
        };
        write!(f, "{name}")
    }
}

/// How many differences there were of each name.
#[derive(Clone, Copy, Default)]
pub struct Names {
    pub unit_beside: u64,
    pub none_beside: u64,
    pub early_end: u64,
    pub too_many: u64,
    pub other_kind: u64,
    pub sums: u64,
    pub places: u64,
    pub tables: u64,
}

impl Names {
    /// Each difference that has a name, with how many there were.
    pub(crate) fn counts(self) -> [(u64, Known); 8] {
        [
            (self.unit_beside, Known::UnitBeside),
            (self.none_beside, Known::NoneBeside),
            (self.early_end, Known::EarlyEnd),
            (self.too_many, Known::TooMany),
            (self.other_kind, Known::OtherKind),
            (self.sums, Known::Sums),
            (self.places, Known::Places),
            (self.tables, Known::Tables),
        ]
    }
}
