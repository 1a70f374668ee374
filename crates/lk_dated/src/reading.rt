ghost use Rattle.std.specs.Prelude.{◌≡◌, option_map};
ghost use Rattle.lk_val.specs.declared.value.Value.TheVariants as value;
ghost use Rattle.lk_cell.specs.Days.{day_cell};
ghost use Rattle.lk_cell.specs.Moments.{moment_cell};
ghost use Rattle.lk_dated.specs.Dated.{time_beside};

use crate::side::is_time;
use lk_cell::{read_day, read_moment};
use lk_types::KindSet;
use lk_val::Value;

// The day or moment that a text writes beside these kinds: a day beside a day alone, and a moment where one can stand.
pub(crate) fn time_beside(kinds: KindSet, text: &[u8]) -> Option<Value>
    ensures { result ≡ time_beside kinds text.now }
{
    if !is_time(kinds) {
        return None;
    }
    if kinds.moment {
        moment_of(text)
    } else {
        day_of(text)
    }
}

fn day_of(text: &[u8]) -> Option<Value>
    ensures { result ≡ option_map value.Day (day_cell text.now) }
{
    Some(Value::Day(read_day(text)?))
}

fn moment_of(text: &[u8]) -> Option<Value>
    ensures { result ≡ option_map value.Moment (moment_cell text.now) }
{
    Some(Value::Moment(read_moment(text)?))
}
