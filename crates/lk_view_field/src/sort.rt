ghost use Rattle.std.specs.Prelude.{◌≡◌, codes};
ghost use Rattle.std.specs.Option.{option_and_then};
ghost use Rattle.lk_view_field.specs.FieldValues.{dimension_type_of, measure_type, sort_of};
ghost use Rattle.lk_written.specs.Values.{text_at};
ghost use Rattle.lk_params.specs.Parameters.{last_named};

use crate::field_type::{dimension_type, measure_type};
use lk_objects::{DimensionType, FieldSort};
use lk_params::{last_named, scalar};
use lk_read::Item;
use lk_types::Op;
use lk_written::text_at;

/// A field's sort with its type, by the parameter that declares it: `dimension`, `measure`, or else `dimension_group`.
pub fn sort_of(kind: &str, items: &[Item]) -> FieldSort
    ensures { result ≡ sort_of kind.now items.now }
{
    if kind == "dimension" {
        FieldSort::Dimension(type_of_dimension(items))
    } else if kind == "measure" {
        FieldSort::Measure(type_of_measure(items))
    } else {
        FieldSort::Group
    }
}

fn type_of_dimension(items: &[Item]) -> Option<DimensionType>
    ensures { result ≡ dimension_type_of (last_named (codes "type") items.now) }
{
    match last_named("type", items) {
        None => Some(DimensionType::Text),
        Some(item) => dimension_type(scalar(&item.value)?.as_str()),
    }
}

fn type_of_measure(items: &[Item]) -> Option<Op>
    ensures { result ≡ option_and_then measure_type (text_at (codes "type") items.now) }
{
    measure_type(text_at("type", items)?.as_str())
}
