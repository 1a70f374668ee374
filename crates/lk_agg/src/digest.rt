ghost use Rattle.std.specs.Prelude.{◌≡◌, ◌≤◌, ◌<◌, IfOk, length, map, pos, neg_ℤ, ◌≤ℤ◌, ◌<ℤ◌, ◌^◌};
ghost use Rattle.lk_val.specs.ValueRefs.{value_of_ref};
ghost use Rattle.lk_val.specs.Values.{is_same};
ghost use Rattle.lk_semantics.specs.Measures.{amount, known_count, total};
ghost use Rattle.lk_types.specs.declared.answer.Pair.{Pair};
ghost use Rattle.lk_agg.specs.NumberPair.{pair_of_numbers};
ghost use Rattle.lk_agg.specs.TextPair.{pair_of_text};
ghost use Rattle.lk_agg.specs.Finishing.{digest_of, twice_after, twice_in};

use crate::number_pair::NumberPair;
use crate::text_pair::TextPair;
use lk_types::Pair as WholePair;
use lk_val::{NoMemory, Value, ValueRef};
use std::alloc::Global;

// What pairs come to: how many they are, the sum of their values, how many of these are not null, and the first key
// that stands with two values.
#[derive(Drop)]
pub(crate) struct Digest {
    pub(crate) count: u64,
    pub(crate) sum: i128,
    pub(crate) values: u64,
    pub(crate) twice: Option<Value>,
}

// What stands for a pair of key and value.
pub(crate) trait Paired {
    ghost pair: { Self → Pair };

    fn key(&self) -> ValueRef<'_>
        ensures { value_of_ref result ≡ (pair self.now).key };

    fn value(&self) -> ValueRef<'_>
        ensures { value_of_ref result ≡ (pair self.now).value };

    fn into_pair(self) -> WholePair
        ensures { result ≡ pair self };
}

impl Paired for NumberPair {
    ghost pair = { pair_of_numbers };

    fn key(&self) -> ValueRef<'_> {
        self.key_ref()
    }

    fn value(&self) -> ValueRef<'_> {
        self.value_ref()
    }

    fn into_pair(self) -> WholePair {
        self.to_pair()
    }
}

impl Paired for TextPair {
    ghost pair = { pair_of_text };

    fn key(&self) -> ValueRef<'_> {
        self.key_ref()
    }

    fn value(&self) -> ValueRef<'_> {
        self.value_ref()
    }

    fn into_pair(self) -> WholePair {
        TextPair::into_pair(self)
    }
}

impl Paired for WholePair {
    ghost pair = { λ pair. pair };

    fn key(&self) -> ValueRef<'_> {
        self.key.as_ref()
    }

    fn value(&self) -> ValueRef<'_> {
        self.value.as_ref()
    }

    fn into_pair(self) -> WholePair {
        self
    }
}

// What ascending pairs come to.
pub(crate) fn digest_of<T: Paired>(alloc: Global, pairs: &[T]) -> Result<Digest, NoMemory>
    ensures { IfOk result (λ digest. digest ≡ digest_of (map T.pair pairs.now)) }
{
    Ok(Digest {
        count: pairs.len() as u64,
        sum: total(pairs),
        values: known_count(pairs),
        twice: twice_in(alloc, pairs)?,
    })
}

// The first key that stands with two values: pairs ascend, so they are neighbours.
fn twice_in<T: Paired>(alloc: Global, pairs: &[T]) -> Result<Option<Value>, NoMemory>
    ensures { IfOk result (λ twice. twice ≡ twice_in (map T.pair pairs.now)) }
{
    if pairs.is_empty() {
        return Ok(None);
    }
    twice_after(alloc, &pairs[0], &pairs[1..])
}

fn twice_after<T: Paired>(alloc: Global, first: &T, pairs: &[T]) -> Result<Option<Value>, NoMemory>
    ensures { IfOk result (λ twice. twice ≡ twice_after (T.pair first.now) (map T.pair pairs.now)) }
{
    let mut last = first;
    for pair in pairs {
        if is_same(last.key(), pair.key()) {
            return Ok(Some(last.key().to_value(alloc)?));
        }
        last = pair;
    }
    Ok(None)
}

fn is_same(a: ValueRef<'_>, b: ValueRef<'_>) -> bool
    ensures { result ≡ is_same (value_of_ref a.entry) (value_of_ref b.entry) }
{
    a.cmp(b).is_eq()
}

// The sum of the pairs' values that are numbers.
fn total<T: Paired>(pairs: &[T]) -> i128
    ensures sum { result ≡ total (map T.pair pairs.now) }
{
    let mut sum = 0i128;
    for pair in pairs {
        sum += amount(pair.value());
    }
    sum
}

fn amount(value: ValueRef<'_>) -> i128
    ensures value { result ≡ amount (value_of_ref value.entry) }
    ensures low { neg_ℤ (pos (2 ^ 63)) ≤ℤ result }
    ensures high { result <ℤ pos (2 ^ 63) }
{
    match value {
        ValueRef::Num(num) => i128::from(num.0),
        _ => 0,
    }
}

fn known_count<T: Paired>(pairs: &[T]) -> u64
    ensures count { result ≡ known_count (map T.pair pairs.now) }
    ensures few { result ≤ length pairs.now }
{
    pairs.iter().filter(|pair| !pair.value().is_null()).count() as u64
}
