ghost use Rattle.std.specs.Prelude.{◌≡◌, ◌↔◌, false, IsErr, IfOk};
ghost use Rattle.std.specs.List.{list_any};
ghost use Rattle.lk_types.specs.Timeframes.{is_had_from, is_same_frame, sources_of};
ghost use Rattle.lk_types.specs.declared.schema.Frame.TheVariants as frame;
ghost use Rattle.lk_val.specs.declared.value.Value.{Value};
ghost use Rattle.lk_time.specs.FrameValues.{IsInYears, IsOfFrame, IsNoText, frame_value};

use crate::framing::frame;
use lk_types::Frame;
use lk_val::Value;

/// Why a timeframe was not brought to another.
#[derive(Clone, Copy, Drop, PartialEq, Eq)]
pub enum NotHad {
    /// The values of the one timeframe do not determine those of the other. (lookd)
    T1,
}

/// The coarser timeframe of every day or moment whose finer timeframe is `v`; for `DayOfWeek` the day, as `frame`
/// gives it. It takes no memory. (Looker, LookML reference: timeframes)
pub fn coarsen(from: Frame, to: Frame, v: &Value) -> Result<Value, NotHad>
    requires no_weekday { is_same_frame from frame.DayOfWeek ≡ false }
    requires of_frame { IsOfFrame from v.now }
    ensures t1 { IsErr result ↔ (is_had_from to from ≡ false) }
    ensures value { IfOk result (λ coarse. (w : Value) → IsInYears w → frame_value from w ≡ v.now
        → coarse ≡ frame_value to w) }
{
    if !is_had_from(to, from) {
        return Err(NotHad::T1);
    }
    if is_same_frame(to, from) {
        return Ok(keep(v));
    }
    Ok(frame(v, to))
}

// Whether the coarse timeframe is had from the fine one.
fn is_had_from(coarse: Frame, fine: Frame) -> bool
    ensures { result ≡ is_had_from coarse fine }
{
    sources_of(coarse)
        .iter()
        .any(|source| is_same_frame(fine, *source))
}

// The timeframes that one is had from.
fn sources_of(coarse: Frame) -> &'static [Frame]
    ensures { result.now ≡ sources_of coarse }
{
    match coarse {
        Frame::Raw => &[Frame::Raw],
        Frame::Time => &[Frame::Raw, Frame::Time],
        Frame::Date => &[Frame::Raw, Frame::Time, Frame::Date],
        Frame::Week => &[Frame::Raw, Frame::Time, Frame::Date, Frame::Week],
        Frame::Month => &[Frame::Raw, Frame::Time, Frame::Date, Frame::Month],
        Frame::Quarter => &[
            Frame::Raw,
            Frame::Time,
            Frame::Date,
            Frame::Month,
            Frame::Quarter,
        ],
        Frame::Year => &[
            Frame::Raw,
            Frame::Time,
            Frame::Date,
            Frame::Month,
            Frame::Quarter,
            Frame::Year,
        ],
        Frame::HourOfDay => &[Frame::Raw, Frame::Time, Frame::HourOfDay],
        Frame::DayOfWeek => &[Frame::Raw, Frame::Time, Frame::Date, Frame::DayOfWeek],
        Frame::DayOfMonth => &[Frame::Raw, Frame::Time, Frame::Date, Frame::DayOfMonth],
        Frame::MonthNum => &[
            Frame::Raw,
            Frame::Time,
            Frame::Date,
            Frame::Month,
            Frame::MonthNum,
        ],
    }
}

fn is_same_frame(f: Frame, g: Frame) -> bool
    ensures { result ≡ is_same_frame f g }
{
    f as u8 == g as u8
}

// The same value, which has no text.
fn keep(v: &Value) -> Value
    requires no_text { IsNoText v.now }
    ensures { result ≡ v.now }
{
    match v {
        Value::Null | Value::Text(_) => Value::Null,
        Value::Num(num) => Value::Num(*num),
        Value::Truth(truth) => Value::Truth(*truth),
        Value::Day(day) => Value::Day(*day),
        Value::Moment(moment) => Value::Moment(*moment),
    }
}
