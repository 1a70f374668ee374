ghost use Rattle.std.specs.Prelude.{◌≡◌, refl};
ghost use Rattle.std.specs.Ordering.{as_partial_cmp};
ghost use Rattle.lk_val.specs.ValueRefs.{value_of_ref};
ghost use Rattle.lk_val.specs.Values.{value_cmp};
ghost use Rattle.lk_agg.specs.NumberPair.{number_or_null, number_pair_cmp, number_pairs_equivalent, number_pairs_equivalent_all, number_pairs_ordered, number_pairs_partial, numbers_of, is_same_number_pair, pair_of_numbers};

use lk_types::Pair;
use lk_val::{Num, Value, ValueRef};
use std::cmp::Ordering;
use std::mem::size_of;

// A pair of which the key is a number and the value a number or null. They are ordered as the pairs are.
#[derive(Clone, Copy)]
pub(crate) struct NumberPair {
    key: i64,
    value: Option<i64>,
}

const _: () = prove!(size_of::<NumberPair>() == 24);

// The key and the value as numbers, where they are such.
pub(crate) fn numbers_of(key: ValueRef<'_>, value: ValueRef<'_>) -> Option<NumberPair>
    ensures { result ≡ numbers_of (value_of_ref key.entry) (value_of_ref value.entry) }
{
    match (key, value) {
        (ValueRef::Num(key), ValueRef::Num(value)) => Some(NumberPair {
            key: key.0,
            value: Some(value.0),
        }),
        (ValueRef::Num(key), ValueRef::Null) => Some(NumberPair {
            key: key.0,
            value: None,
        }),
        _ => None,
    }
}

impl NumberPair {
    pub(crate) fn to_pair(self) -> Pair
        ensures { result ≡ pair_of_numbers self }
    {
        Pair {
            key: Value::Num(Num(self.key)),
            value: number_or_null(self.value),
        }
    }

    pub(crate) fn key_ref(self) -> ValueRef<'static>
        ensures { value_of_ref result ≡ (pair_of_numbers self).key }
    {
        ValueRef::Num(Num(self.key))
    }

    pub(crate) fn value_ref(self) -> ValueRef<'static>
        ensures { value_of_ref result ≡ (pair_of_numbers self).value }
    {
        lent_number(self.value)
    }
}

impl PartialEq for NumberPair {
    ghost eq = { is_same_number_pair };

    ghost laws = { number_pairs_equivalent };

    fn eq(&self, other: &NumberPair) -> bool {
        self.cmp(other) == Ordering::Equal
    }
}

impl Eq for NumberPair {
    ghost laws = { number_pairs_equivalent_all };
}

impl PartialOrd for NumberPair {
    ghost partial_cmp = { as_partial_cmp number_pair_cmp };

    ghost laws = { number_pairs_partial };

    fn partial_cmp(&self, other: &NumberPair) -> Option<Ordering> {
        Some(self.cmp(other))
    }
}

impl Ord for NumberPair {
    ghost cmp = { number_pair_cmp };

    ghost total = { number_pairs_ordered.total };

    ghost matches_partial_cmp = { λ x y. refl };

    ghost matches_eq = { λ x y. refl };

    fn cmp(&self, other: &NumberPair) -> Ordering {
        match self.key.cmp(&other.key) {
            Ordering::Equal => cmp_numbers(self.value, other.value),
            unequal => unequal,
        }
    }
}

// A value of its own for a number, and null for none.
pub(crate) fn number_or_null(number: Option<i64>) -> Value
    ensures { result ≡ number_or_null number }
{
    match number {
        Some(number) => Value::Num(Num(number)),
        None => Value::Null,
    }
}

// The same, lent.
pub(crate) fn lent_number(number: Option<i64>) -> ValueRef<'static>
    ensures { value_of_ref result ≡ number_or_null number }
{
    match number {
        Some(number) => ValueRef::Num(Num(number)),
        None => ValueRef::Null,
    }
}

// The order of two numbers, of which null comes first.
pub(crate) fn cmp_numbers(a: Option<i64>, b: Option<i64>) -> Ordering
    ensures { result ≡ value_cmp (number_or_null a) (number_or_null b) }
{
    match (a, b) {
        (Some(a), Some(b)) => a.cmp(&b),
        (Some(_), None) => Ordering::Greater,
        (None, Some(_)) => Ordering::Less,
        (None, None) => Ordering::Equal,
    }
}
