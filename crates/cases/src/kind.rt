//! The column kinds by name.

ghost use Rattle.std.specs.Prelude.{◌≡◌, MatchResult};
ghost use Rattle.cases.specs.Kinds.{meaning_of};
ghost use Rattle.cases.specs.Laws.{kind-lawful};
ghost use Rattle.cases.specs.Words.{name_of, IsNoName};

use anyhow::anyhow;
use column::fault::Fault;
use column::flat::Flat;
use column::interface::Column;
use column::short::Short;
use column::steps::Steps;
use std::str::FromStr;

/// A column kind, with the layers above it.
#[derive(Clone, Copy)]
pub enum Kind {
    Flat,
    Short,
    StepsFlat,
    StepsShort,
    StepsStepsFlat,
    StepsStepsShort,
}

const STEPS_FLAT: Steps<Flat> = Steps { lower: Flat };

const STEPS_SHORT: Steps<Short> = Steps { lower: Short };

impl FromStr for Kind {
    type Err = anyhow::Error;

    ghost from_str_gives = { λ name r. MatchResult r (λ kind. name ≡ name_of kind) (λ _. IsNoName name) };

    fn from_str(name: &str) -> anyhow::Result<Kind> {
        match name {
            "flat" => Ok(Kind::Flat),
            "short" => Ok(Kind::Short),
            "steps/flat" => Ok(Kind::StepsFlat),
            "steps/short" => Ok(Kind::StepsShort),
            "steps/steps/flat" => Ok(Kind::StepsStepsFlat),
            "steps/steps/short" => Ok(Kind::StepsStepsShort),
            _ => Err(anyhow!("an unknown kind")),
        }
    }
}

/// Writes and reads by the kind that is named.
// Stays: six kinds, and a match in each call. A kind with a boxed kind below it would be made on the heap, and its laws by recursion, to say what six names say.
impl Column for Kind {
    ghost meaning = { meaning_of };

    ghost lawful = { kind-lawful };

    fn write(
        &self,
        layer: u16,
        width: u32,
        values: &mut [u64],
        output: &mut [u8],
        place: usize,
    ) -> Result<usize, Fault> {
        match self {
            Kind::Flat => Flat.write(layer, width, values, output, place),
            Kind::Short => Short.write(layer, width, values, output, place),
            Kind::StepsFlat => STEPS_FLAT.write(layer, width, values, output, place),
            Kind::StepsShort => STEPS_SHORT.write(layer, width, values, output, place),
            Kind::StepsStepsFlat => Steps { lower: STEPS_FLAT }.write(
                layer, width, values, output, place,
            ),
            Kind::StepsStepsShort => Steps { lower: STEPS_SHORT }.write(
                layer, width, values, output, place,
            ),
        }
    }

    fn read(
        &self,
        layer: u16,
        width: u32,
        values: &mut [u64],
        input: &[u8],
        place: usize,
    ) -> Result<usize, Fault> {
        match self {
            Kind::Flat => Flat.read(layer, width, values, input, place),
            Kind::Short => Short.read(layer, width, values, input, place),
            Kind::StepsFlat => STEPS_FLAT.read(layer, width, values, input, place),
            Kind::StepsShort => STEPS_SHORT.read(layer, width, values, input, place),
            Kind::StepsStepsFlat => Steps { lower: STEPS_FLAT }.read(
                layer, width, values, input, place,
            ),
            Kind::StepsStepsShort => Steps { lower: STEPS_SHORT }.read(
                layer, width, values, input, place,
            ),
        }
    }
}
