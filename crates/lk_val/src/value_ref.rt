ghost use Rattle.std.specs.Prelude.{◌≡◌, IfOk};
ghost use Rattle.lk_val.specs.ValueRefs.{value_of_ref};
ghost use Rattle.lk_val.specs.Values.{is_null, rank, value_cmp};

use crate::memory::NoMemory;
use crate::num::Num;
use crate::text::Text;
use crate::value::Value;
use std::alloc::Global;
use std::cmp::Ordering;

/// A value that is only looked at, where it stands. It takes no memory and is copied freely.
#[derive(Clone, Copy)]
pub enum ValueRef<'a> {
    Null,
    Text(&'a str),
    Num(Num),
    Truth(bool),
    Day(i32),
    Moment(i64),
}

impl Value {
    /// The value, lent.
    pub fn as_ref(&self) -> ValueRef<'_>
        ensures { value_of_ref result ≡ self.now }
    {
        match self {
            Value::Null => ValueRef::Null,
            Value::Text(text) => ValueRef::Text(text.as_str()),
            Value::Num(number) => ValueRef::Num(*number),
            Value::Truth(truth) => ValueRef::Truth(*truth),
            Value::Day(day) => ValueRef::Day(*day),
            Value::Moment(moment) => ValueRef::Moment(*moment),
        }
    }
}

impl ValueRef<'_> {
    /// A value of its own that is equal.
    pub fn to_value(self, alloc: Global) -> Result<Value, NoMemory>
        ensures { IfOk result (λ value. value ≡ value_of_ref self.entry) }
    {
        Ok(match self {
            ValueRef::Null => Value::Null,
            ValueRef::Text(text) => Value::Text(Text::from_str(alloc, text)?),
            ValueRef::Num(number) => Value::Num(number),
            ValueRef::Truth(truth) => Value::Truth(truth),
            ValueRef::Day(day) => Value::Day(day),
            ValueRef::Moment(moment) => Value::Moment(moment),
        })
    }

    /// Whether it is null.
    pub fn is_null(self) -> bool
        ensures { result ≡ is_null (value_of_ref self.entry) }
    {
        match self {
            ValueRef::Null => true,
            _ => false,
        }
    }

    /// The order of the two values: null first, then by kind, then within the kind.
    pub fn cmp(self, other: ValueRef<'_>) -> Ordering
        ensures { result ≡ value_cmp (value_of_ref self.entry) (value_of_ref other.entry) }
    {
        match (self, other) {
            (ValueRef::Text(a), ValueRef::Text(b)) => a.cmp(&b),
            (ValueRef::Num(a), ValueRef::Num(b)) => a.cmp(&b),
            (ValueRef::Truth(a), ValueRef::Truth(b)) => a.cmp(&b),
            (ValueRef::Day(a), ValueRef::Day(b)) => a.cmp(&b),
            (ValueRef::Moment(a), ValueRef::Moment(b)) => a.cmp(&b),
            _ => self.rank().cmp(&other.rank()),
        }
    }

    // The place of the value's kind among the kinds.
    fn rank(self) -> u8
        ensures { result ≡ rank (value_of_ref self.entry) }
    {
        match self {
            ValueRef::Null => 0,
            ValueRef::Text(_) => 1,
            ValueRef::Num(_) => 2,
            ValueRef::Truth(_) => 3,
            ValueRef::Day(_) => 4,
            ValueRef::Moment(_) => 5,
        }
    }
}
