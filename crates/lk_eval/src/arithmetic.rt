ghost use Rattle.std.specs.Prelude.{◌≡◌};
ghost use Rattle.lk_val.specs.ValueRefs.{value_of_ref};
ghost use Rattle.lk_types.specs.Expressions.{apply, computed, negated, value_of_num};

use lk_types::Arithmetic;
use lk_val::{Num, Value, ValueRef};

// An operation on two numbers; null for other values, out of range, and divided by 0.
pub(crate) fn apply(op: Arithmetic, a: ValueRef<'_>, b: ValueRef<'_>) -> Value
    ensures { result ≡ apply op (value_of_ref a.entry) (value_of_ref b.entry) }
{
    match (a, b) {
        (ValueRef::Num(a), ValueRef::Num(b)) => value_of_num(computed(op, a, b)),
        _ => Value::Null,
    }
}

// A number with the other sign; null for other values and out of range.
pub(crate) fn negated(v: ValueRef<'_>) -> Value
    ensures { result ≡ negated (value_of_ref v.entry) }
{
    match v {
        ValueRef::Num(num) => value_of_num(num.neg()),
        _ => Value::Null,
    }
}

fn computed(op: Arithmetic, a: Num, b: Num) -> Option<Num>
    ensures { result ≡ computed op a b }
{
    match op {
        Arithmetic::Plus => a.add(b),
        Arithmetic::Minus => a.sub(b),
        Arithmetic::Times => a.mul(b),
        Arithmetic::Over => a.div(b),
    }
}

fn value_of_num(num: Option<Num>) -> Value
    ensures { result ≡ value_of_num num }
{
    match num {
        Some(num) => Value::Num(num),
        None => Value::Null,
    }
}
