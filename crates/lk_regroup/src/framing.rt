// Timeframes of the values of a group.

ghost use Rattle.std.specs.Prelude.{◌≡◌, IfOk, true};
ghost use Rattle.lk_types.specs.Dates.{is_dated};
ghost use Rattle.lk_types.specs.Timeframes.{is_had_from, is_same_frame, timeframe_of};
ghost use Rattle.lk_types.specs.declared.schema.Frame.TheVariants as frame;
ghost use Rattle.lk_time.specs.FrameValues.{IsDay, IsInYears};

use lk_time::{day_name, frame, is_in_years};
use lk_types::Frame;
use lk_val::{NoMemory, Text, Value};
use std::alloc::Global;

/// The timeframe of a day or moment, and null for every other value. (Looker, LookML reference: timeframes)
pub(crate) fn timeframe_of(alloc: Global, f: Frame, v: &Value) -> Result<Value, NoMemory>
    requires { is_dated v.now ≡ true }
    ensures { IfOk result (λ framed. framed ≡ timeframe_of f v.now) }
{
    if !is_in_years(v) {
        return Ok(Value::Null);
    }
    match f {
        Frame::DayOfWeek => weekday_of(alloc, v),
        _ => Ok(frame(v, f)),
    }
}

// The name of the weekday of a day or moment.
fn weekday_of(alloc: Global, v: &Value) -> Result<Value, NoMemory>
    requires { IsInYears v.now }
    ensures { IfOk result (λ name. name ≡ timeframe_of frame.DayOfWeek v.now) }
{
    let day = frame(v, Frame::DayOfWeek);
    match day {
        Value::Day(_) => day_text(alloc, &day),
        _ => Ok(Value::Null),
    }
}

fn day_text(alloc: Global, day: &Value) -> Result<Value, NoMemory>
    requires { IsDay day.now }
    ensures { IfOk result (λ name. name ≡ timeframe_of frame.DayOfWeek day.now) }
{
    Ok(Value::Text(Text::from_str(alloc, day_name(day))?))
}

/// Whether the coarse timeframe is had from the fine one. (Looker, LookML reference: timeframes)
pub(crate) fn is_had_from(coarse: Frame, fine: Frame) -> bool
    ensures { result ≡ is_had_from coarse fine }
{
    match fine {
        Frame::Raw => true,
        Frame::Time => !matches!(coarse, Frame::Raw),
        Frame::Date => !matches!(coarse, Frame::Raw | Frame::Time | Frame::HourOfDay),
        Frame::Month => matches!(
            coarse,
            Frame::Month | Frame::Quarter | Frame::Year | Frame::MonthNum
        ),
        Frame::Quarter => matches!(coarse, Frame::Quarter | Frame::Year),
        // The others give nothing but themselves.
        _ => is_same_frame(coarse, fine),
    }
}

pub(crate) fn is_same_frame(f: Frame, g: Frame) -> bool
    ensures { result ≡ is_same_frame f g }
{
    f as u8 == g as u8
}
