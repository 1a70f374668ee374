ghost use Rattle.std.specs.Prelude.{◌≡◌};
ghost use Rattle.lk_val.specs.ValueRefs.{value_of_ref};
ghost use Rattle.lk_val.specs.Values.{value_cmp};
ghost use Rattle.lk_types.specs.Expressions.{beside, compared};

use lk_types::Comparison;
use lk_val::ValueRef;
use std::cmp::Ordering;

// How many seconds a day has.
const DAY: i64 = 86_400;

// Whether a comparison of two values holds; unknown beside null. A day beside a moment is its midnight.
pub(crate) fn compared(comparison: Comparison, a: ValueRef<'_>, b: ValueRef<'_>) -> Option<bool>
    ensures { result ≡ compared comparison (value_of_ref a.entry) (value_of_ref b.entry) }
{
    if a.is_null() || b.is_null() {
        return None;
    }
    Some(comparison.holds(cmp_beside(a, b)))
}

fn cmp_beside(a: ValueRef<'_>, b: ValueRef<'_>) -> Ordering
    ensures { result ≡ value_cmp (beside (value_of_ref a.entry) (value_of_ref b.entry))
        (beside (value_of_ref b.entry) (value_of_ref a.entry)) }
{
    match (a, b) {
        (ValueRef::Day(day), ValueRef::Moment(moment)) => (i64::from(day) * DAY).cmp(&moment),
        (ValueRef::Moment(moment), ValueRef::Day(day)) => moment.cmp(&(i64::from(day) * DAY)),
        _ => a.cmp(b),
    }
}
