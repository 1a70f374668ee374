ghost use Rattle.std.specs.Prelude.{◌↔◌, IsTrue};
ghost use Rattle.lk_time.specs.FrameValues.{IsInYears};

use lk_val::Value;

// The first and last day of the years 1 to 9999, and their first and last second.
const FIRST_DAY: i32 = -719_162;

const LAST_DAY: i32 = 2_932_896;

const FIRST_SECOND: i64 = -62_135_596_800;

const LAST_SECOND: i64 = 253_402_300_799;

/// Whether a value is null, or a day or moment of the years 1 to 9999: what `frame` takes.
pub fn is_in_years(v: &Value) -> bool
    ensures { IsTrue result ↔ IsInYears v.now }
{
    match v {
        Value::Null => true,
        Value::Day(day) => FIRST_DAY <= *day && *day <= LAST_DAY,
        Value::Moment(moment) => FIRST_SECOND <= *moment && *moment <= LAST_SECOND,
        _ => false,
    }
}
