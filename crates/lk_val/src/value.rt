ghost use Rattle.std.specs.Prelude.{◌≡◌, IfOk};
ghost use Rattle.lk_val.specs.Sets.{IsExactOrder};
ghost use Rattle.lk_val.specs.Values.{value_cmp, null_last_cmp, tuple_cmp};

use crate::memory::NoMemory;
use crate::num::Num;
use crate::text::Text;
use std::alloc::Global;
use std::cmp::Ordering;

/// A cell of a table. A day is a number of days and a moment a number of seconds, both from
/// 1970-01-01 00:00:00 UTC.
#[derive(Drop, PartialEq, Eq, PartialOrd, Ord)]
pub enum Value {
    Null,
    Text(Text),
    Num(Num),
    Truth(bool),
    Day(i32),
    Moment(i64),
}

impl Value {
    /// Another value that is equal.
    pub fn copy(&self, alloc: Global) -> Result<Value, NoMemory>
        ensures { IfOk result (λ copied. copied ≡ self.now) }
    {
        Ok(match self {
            Value::Null => Value::Null,
            Value::Text(text) => Value::Text(text.copy(alloc)?),
            Value::Num(num) => Value::Num(*num),
            Value::Truth(truth) => Value::Truth(*truth),
            Value::Day(day) => Value::Day(*day),
            Value::Moment(moment) => Value::Moment(*moment),
        })
    }
}

/// The order of values: null first, then by kind, then within the kind. It takes no memory.
pub fn cmp_value(a: &Value, b: &Value) -> Ordering
    ensures { result ≡ value_cmp a.now b.now }
{
    a.cmp(b)
}

/// The order of values is total and only equal values tie, and so it is with null last, and for tuples. A law: it
/// computes nothing.
pub fn order_is_exact()
    ensures values { IsExactOrder value_cmp }
    ensures null_last { IsExactOrder null_last_cmp }
    ensures tuples { IsExactOrder tuple_cmp }
{}
