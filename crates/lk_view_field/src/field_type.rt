ghost use Rattle.std.specs.Prelude.{◌≡◌};
ghost use Rattle.lk_view_field.specs.FieldValues.{dimension_type, measure_type};

use lk_objects::DimensionType;
use lk_types::Op;

/// The type of a dimension, by its name; `zipcode` is read as `string`. (Looker, LookML reference: dimension types)
pub fn dimension_type(name: &str) -> Option<DimensionType>
    ensures { result ≡ dimension_type name.now }
{
    if name == "string" || name == "zipcode" {
        Some(DimensionType::Text)
    } else if name == "number" {
        Some(DimensionType::Number)
    } else if name == "yesno" {
        Some(DimensionType::Truth)
    } else if name == "tier" {
        Some(DimensionType::Tier)
    } else {
        None
    }
}

/// The type of a measure, by its name. (Looker, LookML reference: measure types)
pub fn measure_type(name: &str) -> Option<Op>
    ensures { result ≡ measure_type name.now }
{
    if name == "count" {
        Some(Op::Count)
    } else if name == "count_distinct" {
        Some(Op::CountDistinct)
    } else if name == "sum" {
        Some(Op::Sum)
    } else if name == "average" {
        Some(Op::Average)
    } else if name == "min" {
        Some(Op::Min)
    } else if name == "max" {
        Some(Op::Max)
    } else if name == "sum_distinct" {
        Some(Op::SumDistinct)
    } else if name == "average_distinct" {
        Some(Op::AverageDistinct)
    } else if name == "number" {
        Some(Op::Number)
    } else {
        None
    }
}
