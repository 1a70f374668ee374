// The three truth values: yes, no and unknown, which is none here and null as a value.

ghost use Rattle.std.specs.Prelude.{◌≡◌};
ghost use Rattle.lk_val.specs.ValueRefs.{value_of_ref};
ghost use Rattle.lk_types.specs.Expressions.{truth_of, value_of_truth, and_of, or_of, not_of, is_true, is_true_truth};

use lk_val::{Value, ValueRef};

// The truth value of a value; unknown where it is null.
pub(crate) fn truth_of(v: ValueRef<'_>) -> Option<bool>
    ensures { result ≡ truth_of (value_of_ref v.entry) }
{
    match v {
        ValueRef::Truth(truth) => Some(truth),
        _ => None,
    }
}

// A truth value as a value.
pub(crate) fn value_of_truth(truth: Option<bool>) -> Value
    ensures { result ≡ value_of_truth truth }
{
    match truth {
        Some(truth) => Value::Truth(truth),
        None => Value::Null,
    }
}

// AND of three truth values.
pub(crate) fn and_of(a: Option<bool>, b: Option<bool>) -> Option<bool>
    ensures { result ≡ and_of a b }
{
    match (a, b) {
        (Some(true), b) => b,
        (Some(false), _) | (None, Some(false)) => Some(false),
        (None, _) => None,
    }
}

// OR of three truth values.
pub(crate) fn or_of(a: Option<bool>, b: Option<bool>) -> Option<bool>
    ensures { result ≡ or_of a b }
{
    not_of(and_of(not_of(a), not_of(b)))
}

// NOT of three truth values.
pub(crate) fn not_of(a: Option<bool>) -> Option<bool>
    ensures { result ≡ not_of a }
{
    match a {
        Some(truth) => Some(!truth),
        None => None,
    }
}

/// Whether a value is yes, and neither no nor unknown.
pub fn is_true(v: ValueRef<'_>) -> bool
    ensures { result ≡ is_true (value_of_ref v.entry) }
{
    match v {
        ValueRef::Truth(truth) => truth,
        _ => false,
    }
}

// Whether a truth value is yes.
pub(crate) fn is_yes(truth: Option<bool>) -> bool
    ensures { result ≡ is_true_truth truth }
{
    match truth {
        Some(truth) => truth,
        None => false,
    }
}
