ghost use Rattle.std.specs.Prelude.{refl};
ghost use Rattle.std.specs.Ordering.{as_partial_cmp};
ghost use Rattle.lk_types.specs.PairOrder.{pair_cmp, is_same_pair, pairs_ordered, pairs_equivalent, pairs_equivalent_all, pairs_partial};

use lk_val::{Bytes, Cell, Items, Value, cmp_value};
use std::cmp::Ordering;

/// What a row gives to a measure: a key, or none for the row's place, and a value. `counts` is false
/// where the row does not pass the measure's filters.
#[derive(Drop)]
pub struct KeyValue {
    pub key: Option<Value>,
    pub value: Value,
    pub counts: bool,
}

/// A row as it is given to the measures: its place among the rows that pass, its group, and what it gives to each
/// measure.
#[derive(Drop)]
pub struct GivenRow {
    pub place: u64,
    pub group: Items<Value>,
    pub cells: Items<KeyValue>,
}

/// A primary key and the value that stands with it. Pairs are ordered by key, and then by value.
#[derive(Drop)]
pub struct Pair {
    pub key: Value,
    pub value: Value,
}

impl PartialEq for Pair {
    ghost eq = { is_same_pair };

    ghost laws = { pairs_equivalent };

    fn eq(&self, other: &Pair) -> bool {
        self.cmp(other) == Ordering::Equal
    }
}

impl Eq for Pair {
    ghost laws = { pairs_equivalent_all };
}

impl PartialOrd for Pair {
    ghost partial_cmp = { as_partial_cmp pair_cmp };

    ghost laws = { pairs_partial };

    fn partial_cmp(&self, other: &Pair) -> Option<Ordering> {
        Some(self.cmp(other))
    }
}

impl Ord for Pair {
    ghost cmp = { pair_cmp };

    ghost total = { pairs_ordered.total };

    ghost matches_partial_cmp = { λ x y. refl };

    ghost matches_eq = { λ x y. refl };

    fn cmp(&self, other: &Pair) -> Ordering {
        match cmp_value(&self.key, &other.key) {
            Ordering::Equal => cmp_value(&self.value, &other.value),
            order => order,
        }
    }
}

/// A group with a cell for each measure.
#[derive(Drop)]
pub struct GroupRow {
    pub group: Items<Value>,
    pub cells: Items<Cell>,
}

/// The answer of a bound query.
#[derive(Drop)]
pub enum Answer {
    /// The measure has two values for the key in one group.
    Duplicate(u32, Value),
    /// The rows, and whether these are all.
    Table(Items<Items<Cell>>, bool),
}

/// The parts from which a measure is put together, for a group and a measure of a rollup.
#[derive(Drop)]
pub struct Partial {
    pub count: u64,
    pub sum: i128,
    pub values: u64,
    pub least: Value,
    pub most: Value,
    pub distinct: u64,
}

/// Which state answers a query, and from what.
#[derive(Clone, Copy, PartialEq, Eq)]
pub struct Route {
    pub number: u64,
    pub from: RouteFrom,
}

/// The current tables, the tables of a datagroup's build, or a rollup.
#[derive(Clone, Copy, PartialEq, Eq)]
pub enum RouteFrom {
    Current,
    Build(u32),
    Rollup(u32),
}

/// A reply to a request: its HTTP status, whether the body is CSV or else JSON, and the body.
#[derive(Drop)]
pub struct Reply {
    pub status: u16,
    pub csv: bool,
    pub body: Bytes,
}
