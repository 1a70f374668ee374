ghost use Rattle.std.specs.Prelude.{◌≡◌};
ghost use Rattle.lk_view_field.specs.FieldFindings.{needs_key, needs_sql};

use lk_types::Op;

/// Whether a measure of this type has to have `sql`: each but a count, one of an unknown type too.
pub fn needs_sql(op: Option<Op>) -> bool
    ensures { result ≡ needs_sql op }
{
    match op {
        Some(Op::Count) => false,
        _ => true,
    }
}

/// Whether a measure of this type has to have `sql_distinct_key`.
pub fn needs_key(op: Option<Op>) -> bool
    ensures { result ≡ needs_key op }
{
    match op {
        Some(Op::SumDistinct) | Some(Op::AverageDistinct) => true,
        _ => false,
    }
}
