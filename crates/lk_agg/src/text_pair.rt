ghost use Rattle.std.specs.Prelude.{◌≡◌, IfOk, option_map, refl, true};
ghost use Rattle.std.specs.Ordering.{as_partial_cmp};
ghost use Rattle.lk_val.specs.Sets.{has};
ghost use Rattle.lk_val.specs.ValueRefs.{value_of_ref};
ghost use Rattle.lk_agg.specs.TextPair.{is_same_text_pair, pair_of_text, text_pair_cmp, text_pair_lent, text_pair_of, text_pairs_equivalent, text_pairs_equivalent_all, text_pairs_ordered, text_pairs_partial};

use crate::number_pair::{cmp_numbers, lent_number, number_or_null};
use lk_types::Pair;
use lk_val::{NoMemory, Text, Value, ValueRef};
use std::alloc::Global;
use std::cmp::Ordering;
use std::mem::size_of;

// A pair of which the key is a text and the value a number or null. They are ordered as the pairs are.
#[derive(Drop)]
pub(crate) struct TextPair {
    key: Text,
    value: Option<i64>,
}

const _: () = prove!(size_of::<TextPair>() == 40);

// The same, where its key is only lent.
#[derive(Clone, Copy)]
pub(crate) struct LentTextPair<'a> {
    key: &'a str,
    value: Option<i64>,
}

// The key as a text and the value as a number, where they are such.
pub(crate) fn text_pair_of<'a>(key: ValueRef<'a>, value: ValueRef<'_>) -> Option<LentTextPair<'a>>
    ensures { option_map text_pair_lent result
        ≡ text_pair_of (value_of_ref key.entry) (value_of_ref value.entry) }
{
    match (key, value) {
        (ValueRef::Text(key), ValueRef::Num(value)) => Some(LentTextPair {
            key,
            value: Some(value.0),
        }),
        (ValueRef::Text(key), ValueRef::Null) => Some(LentTextPair { key, value: None }),
        _ => None,
    }
}

// Whether a pair is found among ascending ones.
pub(crate) fn is_found(pairs: &[TextPair], pair: LentTextPair<'_>) -> bool
    ensures { result ≡ true → has text_pair_cmp (text_pair_lent pair.entry) pairs.now ≡ true }
{
    match pairs.binary_search_by(|other| other.cmp_lent(pair)) {
        Ok(_) => true,
        Err(_) => false,
    }
}

impl LentTextPair<'_> {
    // A pair of its own, which copies the key.
    pub(crate) fn to_text_pair(self, alloc: Global) -> Result<TextPair, NoMemory>
        ensures { IfOk result (λ pair. pair ≡ text_pair_lent self.entry) }
    {
        Ok(TextPair {
            key: Text::from_str(alloc, self.key)?,
            value: self.value,
        })
    }
}

impl TextPair {
    pub(crate) fn into_pair(self) -> Pair
        ensures { result ≡ pair_of_text self }
    {
        let TextPair { key, value } = self;
        Pair {
            key: Value::Text(key),
            value: number_or_null(value),
        }
    }

    pub(crate) fn key_ref(&self) -> ValueRef<'_>
        ensures { value_of_ref result ≡ (pair_of_text self.now).key }
    {
        ValueRef::Text(self.key.as_str())
    }

    pub(crate) fn value_ref(&self) -> ValueRef<'static>
        ensures { value_of_ref result ≡ (pair_of_text self.now).value }
    {
        lent_number(self.value)
    }

    fn lent(&self) -> LentTextPair<'_>
        ensures { text_pair_lent result ≡ self.now }
    {
        LentTextPair {
            key: self.key.as_str(),
            value: self.value,
        }
    }

    fn cmp_lent(&self, other: LentTextPair<'_>) -> Ordering
        ensures { result ≡ text_pair_cmp self.now (text_pair_lent other.entry) }
    {
        match self.key.as_str().cmp(&other.key) {
            Ordering::Equal => cmp_numbers(self.value, other.value),
            unequal => unequal,
        }
    }
}

impl PartialEq for TextPair {
    ghost eq = { is_same_text_pair };

    ghost laws = { text_pairs_equivalent };

    fn eq(&self, other: &TextPair) -> bool {
        self.cmp(other) == Ordering::Equal
    }
}

impl Eq for TextPair {
    ghost laws = { text_pairs_equivalent_all };
}

impl PartialOrd for TextPair {
    ghost partial_cmp = { as_partial_cmp text_pair_cmp };

    ghost laws = { text_pairs_partial };

    fn partial_cmp(&self, other: &TextPair) -> Option<Ordering> {
        Some(self.cmp(other))
    }
}

impl Ord for TextPair {
    ghost cmp = { text_pair_cmp };

    ghost total = { text_pairs_ordered.total };

    ghost matches_partial_cmp = { λ x y. refl };

    ghost matches_eq = { λ x y. refl };

    fn cmp(&self, other: &TextPair) -> Ordering {
        self.cmp_lent(other.lent())
    }
}
