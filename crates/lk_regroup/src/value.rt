// The values of a group of an aggregate table, as a query's fields have them.

ghost use Rattle.std.specs.Prelude.{◌≡◌, IfOk, map, true};
ghost use Rattle.std.specs.List.{list_all};
ghost use Rattle.lk_types.specs.Dates.{is_dated};
ghost use Rattle.lk_regroup.specs.FieldSources.{brought, value_from};
ghost use Rattle.lk_regroup.specs.Had.{had_value};

use crate::framing::timeframe_of;
use crate::source::FieldSource;
use lk_types::Frame;
use lk_val::{Items, NoMemory, Value};
use std::alloc::Global;

// The value that a field has in a group: that of the group itself, or one that was made of it.
#[derive(Drop)]
pub(crate) enum Had<'a> {
    Lent(&'a Value),
    Made(Value),
}

impl<'a> Had<'a> {
    pub(crate) fn value(&self) -> &Value
        ensures { result.now ≡ had_value self.now }
    {
        match self {
            Had::Lent(v) => v,
            Had::Made(v) => v,
        }
    }

    fn into_value(self, alloc: Global) -> Result<Value, NoMemory>
        ensures { IfOk result (λ value. value ≡ had_value self.entry) }
    {
        match self {
            Had::Lent(v) => v.copy(alloc),
            Had::Made(v) => Ok(v),
        }
    }
}

/// The value that a group has at a source, null where it has none.
pub(crate) fn value_from<'a>(
    alloc: Global,
    group: &'a [Value],
    source: Option<FieldSource>,
) -> Result<Had<'a>, NoMemory>
    requires dated { list_all is_dated group.now ≡ true }
    ensures { IfOk result (λ had. had_value had ≡ value_from group.now source) }
{
    let Some(source) = source else {
        return Ok(Had::Made(Value::Null));
    };
    match group.get(source.place) {
        Some(v) => brought(alloc, source.frame, v),
        None => Ok(Had::Made(Value::Null)),
    }
}

// A value, brought to a timeframe where there is one.
fn brought<'a>(alloc: Global, frame: Option<Frame>, v: &'a Value) -> Result<Had<'a>, NoMemory>
    requires dated { is_dated v.now ≡ true }
    ensures { IfOk result (λ had. had_value had ≡ brought frame v.now) }
{
    match frame {
        None => Ok(Had::Lent(v)),
        Some(f) => Ok(Had::Made(timeframe_of(alloc, f, v)?)),
    }
}

/// The group of a query in which a group of an aggregate table lies: its values at these sources.
pub(crate) fn group_from(
    alloc: Global,
    group: &[Value],
    sources: &[Option<FieldSource>],
) -> Result<Items<Value>, NoMemory>
    requires dated { list_all is_dated group.now ≡ true }
    ensures { IfOk result (λ values. values ≡ map (value_from group.now) sources.now) }
{
    let mut values = Items::from_vec(Vec::with_capacity(alloc, sources.len())?);
    for source in sources {
        values.push(value_from(alloc, group, *source)?.into_value(alloc)?)?;
    }
    Ok(values)
}
