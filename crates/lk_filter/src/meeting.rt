// Which values meet a test.

ghost use Rattle.std.specs.Prelude.{◌≡◌};
ghost use Rattle.lk_types.specs.Filters.{meets, null_meets, text_meets, truth_meets, day_meets};

use crate::comparing::number_meets;
use lk_types::{Test, day_of_moment, matches};
use lk_val::Value;

// Null meets `NULL` and `EMPTY` alone; a moment meets what its day does.
pub(crate) fn meets(value: &Value, test: &Test) -> bool
    ensures { result ≡ meets value.now test.now }
{
    match value {
        Value::Null => null_meets(test),
        Value::Text(text) => text_meets(text.as_bytes(), test),
        Value::Num(num) => number_meets(num, test),
        Value::Truth(truth) => truth_meets(*truth, test),
        Value::Day(day) => day_meets(i64::from(*day), test),
        Value::Moment(moment) => day_meets(day_of_moment(*moment), test),
    }
}

pub(crate) fn null_meets(test: &Test) -> bool
    ensures { result ≡ null_meets test.now }
{
    match test {
        Test::Null | Test::Empty => true,
        _ => false,
    }
}

fn text_meets(text: &[u8], test: &Test) -> bool
    ensures { result ≡ text_meets text.now test.now }
{
    match test {
        Test::Like(pieces) => matches(pieces.as_slice(), text),
        Test::Empty => text.is_empty(),
        _ => false,
    }
}

fn truth_meets(truth: bool, test: &Test) -> bool
    ensures { result ≡ truth_meets truth test.now }
{
    match test {
        Test::Truth(met) => truth == *met,
        _ => false,
    }
}

// A day from 1970-01-01 meets a span from its first day on, and up to the day before its last.
fn day_meets(day: i64, test: &Test) -> bool
    ensures { result ≡ day_meets day test.now }
{
    match test {
        Test::In(days) => i64::from(days.from) <= day && day < i64::from(days.up_to),
        Test::Before(days) => day < i64::from(days.from),
        Test::After(days) => i64::from(days.from) <= day,
        Test::FromTo(first, last) => i64::from(first.from) <= day && day < i64::from(last.from),
        _ => false,
    }
}
