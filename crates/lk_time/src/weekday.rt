ghost use Rattle.std.specs.Prelude.{◌≡◌};
ghost use Rattle.lk_types.specs.Calendar.{from_year_one};
ghost use Rattle.lk_types.specs.Timeframes.{timeframe_of, weekday_name};
ghost use Rattle.lk_types.specs.declared.schema.Frame.TheVariants as frame;
ghost use Rattle.lk_val.specs.declared.value.Value.TheVariants as value;
ghost use Rattle.lk_time.specs.FrameValues.{IsDay};
ghost use Rattle.lk_val.specs.Years.{IsDayInYears};

use crate::civil::weekday_of;
use jiff_core::civil::Weekday;
use lk_val::Value;

/// The name of a day's weekday, `Monday` to `Sunday`: the text that the day stands for in `DayOfWeek`. It takes no
/// memory. (Looker, LookML reference: timeframes)
pub fn day_name(v: &Value) -> &'static str
    requires day { IsDay v.now }
    ensures { value.Text result.now ≡ timeframe_of frame.DayOfWeek v.now }
{
    match v {
        Value::Day(day) => weekday_name(*day),
        _ => "",
    }
}

fn weekday_name(day: i32) -> &'static str
    requires { IsDayInYears day }
    ensures { result.now ≡ weekday_name (from_year_one day) }
{
    match weekday_of(day) {
        Weekday::Monday => "Monday",
        Weekday::Tuesday => "Tuesday",
        Weekday::Wednesday => "Wednesday",
        Weekday::Thursday => "Thursday",
        Weekday::Friday => "Friday",
        Weekday::Saturday => "Saturday",
        Weekday::Sunday => "Sunday",
    }
}
