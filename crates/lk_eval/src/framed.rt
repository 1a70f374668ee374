ghost use Rattle.std.specs.Prelude.{◌≡◌, true, IfOk};
ghost use Rattle.lk_types.specs.Timeframes.{timeframe_of};
ghost use Rattle.lk_types.specs.declared.schema.Frame.TheVariants as frame;
ghost use Rattle.lk_time.specs.FrameValues.{IsDay, IsInYears};
ghost use Rattle.lk_types.specs.Dates.{is_dated};

use lk_time::{day_name, frame, is_in_years};
use lk_types::Frame;
use lk_val::{NoMemory, Text, Value};
use std::alloc::Global;

// The timeframe of a day or moment; null for other values.
pub(crate) fn timeframe_of(alloc: Global, f: Frame, v: &Value) -> Result<Value, NoMemory>
    requires { is_dated v.now ≡ true }
    ensures { IfOk result (λ framed. framed ≡ timeframe_of f v.now) }
{
    if !is_in_years(v) {
        return Ok(Value::Null);
    }
    match f {
        Frame::DayOfWeek => weekday_of(alloc, v),
        _ => Ok(frame(v, f)),
    }
}

// The name of the weekday of a day or moment.
fn weekday_of(alloc: Global, v: &Value) -> Result<Value, NoMemory>
    requires { IsInYears v.now }
    ensures { IfOk result (λ name. name ≡ timeframe_of frame.DayOfWeek v.now) }
{
    let day = frame(v, Frame::DayOfWeek);
    match day {
        Value::Day(_) => day_text(alloc, &day),
        _ => Ok(Value::Null),
    }
}

// The name of a day's weekday.
fn day_text(alloc: Global, day: &Value) -> Result<Value, NoMemory>
    requires { IsDay day.now }
    ensures { IfOk result (λ name. name ≡ timeframe_of frame.DayOfWeek day.now) }
{
    Ok(Value::Text(Text::from_str(alloc, day_name(day))?))
}
