ghost use Rattle.std.specs.Prelude.{◌≡◌, IfOk, length, refl};
ghost use Rattle.std.specs.Ordering.{as_partial_cmp};
ghost use Rattle.lk_val.specs.Values.{tuple_cmp, is_same_tuple};
ghost use Rattle.lk_val.specs.ValueOrder.{tuples_ordered, tuples_equivalent, tuples_equivalent_all, tuples_partial};

use crate::items::Items;
use crate::memory::NoMemory;
use crate::value::Value;
use std::alloc::Global;
use std::cmp::Ordering;
use std::marker::Model;

/// A tuple of values, as a group has one for its dimensions. Clauses see it as their list; tuples are
/// ordered by their first difference, so that they can be the keys of a map.
#[derive(Drop)]
pub struct Tuple {
    values: Items<Value>,
}

impl Model for Tuple {
    ghost use Rattle.std.specs.Prelude.{List};
    ghost use Rattle.lk_val.specs.declared.value.Value.{Value as TableValue};

    ghost Value = { List TableValue };

    ghost view = { λ tuple. tuple.values };
}

impl Tuple {
    /// The tuple of the values, which takes no memory.
    pub fn new(values: Items<Value>) -> Tuple
        ensures { result ≡ values }
    {
        Tuple { values }
    }

    /// The values as a list, which takes no memory.
    pub fn into_values(self) -> Items<Value>
        ensures { result ≡ self }
    {
        let Tuple { values } = self;
        values
    }

    /// The values, in order.
    pub fn as_slice(&self) -> &[Value]
        ensures { result.now ≡ self.now }
    {
        self.values.as_slice()
    }
}

impl PartialEq for Tuple {
    ghost eq = { is_same_tuple };

    ghost laws = { tuples_equivalent };

    fn eq(&self, other: &Tuple) -> bool {
        self.cmp(other) == Ordering::Equal
    }
}

impl Eq for Tuple {
    ghost laws = { tuples_equivalent_all };
}

impl PartialOrd for Tuple {
    ghost partial_cmp = { as_partial_cmp tuple_cmp };

    ghost laws = { tuples_partial };

    fn partial_cmp(&self, other: &Tuple) -> Option<Ordering> {
        Some(self.cmp(other))
    }
}

impl Ord for Tuple {
    ghost cmp = { tuple_cmp };

    ghost total = { tuples_ordered.total };

    ghost matches_partial_cmp = { λ x y. refl };

    ghost matches_eq = { λ x y. refl };

    fn cmp(&self, other: &Tuple) -> Ordering {
        self.as_slice().cmp(other.as_slice())
    }
}
