ghost use Rattle.std.specs.Prelude.{◌≡◌, IfOk};
ghost use Rattle.std.specs.List.{position};
ghost use Rattle.lk_val.specs.Texts.{is_same_text};
ghost use Rattle.lk_fields.specs.Existing.{is_same_place};
ghost use Rattle.lk_resolved.specs.Names.{dimension_number, group_number, measure_number, or_zero};

use crate::names::{Named, NamedDimension, NamedMeasure};
use lk_fields::{Place, number_of};
use lk_val::NoMemory;

impl Named {
    // The number of a dimension's name.
    pub(crate) fn dimension(&self, name: &str) -> Result<u32, NoMemory>
        ensures { IfOk result (λ n. n ≡ dimension_number self.now.dimensions name.now) }
    {
        as_number(position_of_name(self.dimensions.as_slice(), name))
    }

    // The number of the measure at a place.
    pub(crate) fn measure(&self, place: Place) -> Result<u32, NoMemory>
        ensures { IfOk result (λ n. n ≡ measure_number self.now.measures place) }
    {
        as_number(position_of_measure(self.measures.as_slice(), place))
    }

    // The number of the dimension group at a place.
    pub(crate) fn group(&self, place: Place) -> Result<u32, NoMemory>
        ensures { IfOk result (λ n. n ≡ group_number self.now.groups place) }
    {
        as_number(number_of(self.groups.as_slice(), place))
    }
}

// A place in a list as a number, and 0 where there is none. A number past 32 bits wants memory.
pub(crate) fn as_number(place: Option<usize>) -> Result<u32, NoMemory>
    ensures { IfOk result (λ n. n ≡ or_zero place) }
{
    match place {
        None => Ok(0),
        Some(place) => u32::try_from(place).map_err(|_| NoMemory),
    }
}

fn position_of_name(named: &[NamedDimension], name: &str) -> Option<usize>
    ensures { result ≡ position (λ d. is_same_text d.name name.now) named.now }
{
    named
        .iter()
        .position(|dimension| dimension.name.as_str() == name)
}

fn position_of_measure(named: &[NamedMeasure], place: Place) -> Option<usize>
    ensures { result ≡ position (λ m. is_same_place m.place place) named.now }
{
    named.iter().position(|measure| measure.place == place)
}
