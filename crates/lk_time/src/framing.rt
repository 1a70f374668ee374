ghost use Rattle.std.specs.Prelude.{◌≡◌, ◌<◌, ◌/◌};
ghost use Rattle.lk_types.specs.Calendar.{day_of_moment, second_of_moment};
ghost use Rattle.lk_types.specs.Timeframes.{whole};
ghost use Rattle.lk_val.specs.Years.{IsDayInYears, IsMomentInYears};
ghost use Rattle.lk_time.specs.FrameValues.{IsInYears, IsInRangeOf, frame_value};
ghost use Rattle.lk_val.specs.declared.value.Value.TheVariants as value;

use crate::civil::{date_of, month_start, quarter_start, week_start, year_start};
use lk_types::Frame;
use lk_val::{Num, Value};

/// The timeframe of a day or moment, null for null; for `DayOfWeek` the day, whose text is `day_name`'s. It takes
/// no memory. (Looker, LookML reference: timeframes)
pub fn frame(v: &Value, f: Frame) -> Value
    requires in_years { IsInYears v.now }
    ensures value { result ≡ frame_value f v.now }
    ensures in_range { IsInRangeOf f result }
{
    match v {
        Value::Day(day) => frame_day(*day, f),
        Value::Moment(moment) => frame_moment(*moment, f),
        _ => Value::Null,
    }
}

fn frame_day(day: i32, f: Frame) -> Value
    requires { IsDayInYears day }
    ensures value { result ≡ frame_value f (value.Day day) }
    ensures in_range { IsInRangeOf f result }
{
    match f {
        Frame::Raw | Frame::Date | Frame::DayOfWeek => Value::Day(day),
        Frame::Time => Value::Moment(i64::from(day) * 86_400),
        Frame::Week => Value::Day(week_start(day)),
        Frame::Month => Value::Day(month_start(day)),
        Frame::Quarter => Value::Day(quarter_start(day)),
        Frame::Year => Value::Day(year_start(day)),
        Frame::HourOfDay => whole(0),
        Frame::DayOfMonth => whole(date_of(day).day),
        Frame::MonthNum => whole(date_of(day).month),
    }
}

fn frame_moment(moment: i64, f: Frame) -> Value
    requires { IsMomentInYears moment }
    ensures value { result ≡ frame_value f (value.Moment moment) }
    ensures in_range { IsInRangeOf f result }
{
    match f {
        Frame::Raw | Frame::Time => Value::Moment(moment),
        Frame::HourOfDay => whole(hour_of(moment)),
        _ => frame_day(day_of(moment), f),
    }
}

// The day of a moment.
#[tactic(auto, using(jiff_core::proofs::SignedLemmas::signed_arith), unfolding(lk_types::specs::Calendar::day_of_moment))]
fn day_of(moment: i64) -> i32
    requires { IsMomentInYears moment }
    ensures day { result ≡ day_of_moment moment }
    ensures in_range { IsDayInYears result }
{
    moment.div_euclid(86_400) as i32
}

// The hour of its day that a moment is in.
#[tactic(auto, using(jiff_core::proofs::SignedLemmas::signed_arith), unfolding(lk_types::specs::Calendar::second_of_moment))]
fn hour_of(moment: i64) -> u8
    ensures hour { result ≡ second_of_moment moment / 3600 }
    ensures bound { result < 24 }
{
    (moment.rem_euclid(86_400) / 3_600) as u8
}

// A whole number as a value.
fn whole(n: u8) -> Value
    ensures { result ≡ whole n }
{
    Value::Num(Num(i64::from(n) * 10_000))
}
