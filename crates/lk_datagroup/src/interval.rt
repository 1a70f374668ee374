ghost use Rattle.std.specs.Prelude.{◌≡◌, ◌≤◌, ◌&&◌, ◌||◌, IfSome, nat_le, pos};
ghost use Rattle.std.specs.Option.{option_map};
ghost use Rattle.std.specs.Char.{is_ascii_digit};
ghost use Rattle.std.specs.List.{list_all};
ghost use Rattle.lk_val.specs.Texts.{is_same_text};
ghost use Rattle.lk_datagroup.specs.Intervals.{count_of, interval_of, seconds_in};

// The interval in seconds: a number from 1 to 1,000,000, one space, and a unit. (Looker, LookML reference: interval_trigger)
pub(crate) fn interval_of(text: &str) -> Option<i64>
    ensures { result ≡ option_map pos (interval_of text.now) }
{
    let (number, unit) = text.split_once(' ')?;
    let count = count_of(number)?;
    let seconds = seconds_in(unit)?;
    Some(i64::from(count) * i64::from(seconds))
}

// A number from 1 to 1,000,000 in digits; leading zeros may stand.
fn count_of(text: &str) -> Option<u32>
    ensures { result ≡ count_of text.now }
{
    if !is_number(text) {
        return None;
    }
    match text.parse::<u32>() {
        Ok(number) if is_in_range(number) => Some(number),
        _ => None,
    }
}

fn is_number(text: &str) -> bool
    ensures { result ≡ list_all is_ascii_digit text.now }
{
    text.as_bytes().iter().all(|c| c.is_ascii_digit())
}

fn is_in_range(number: u32) -> bool
    ensures { result ≡ (nat_le 1 number && nat_le number 1000000) }
{
    1 <= number && number <= 1_000_000
}

// The seconds of a unit, in the singular or in the plural.
fn seconds_in(unit: &str) -> Option<u32>
    ensures of { result ≡ seconds_in unit.now }
    ensures few { IfSome result (λ n. n ≤ 3600) }
{
    if is_either(unit, "second", "seconds") {
        Some(1)
    } else if is_either(unit, "minute", "minutes") {
        Some(60)
    } else if is_either(unit, "hour", "hours") {
        Some(3600)
    } else {
        None
    }
}

fn is_either(unit: &str, singular: &str, plural: &str) -> bool
    ensures { result ≡ (is_same_text unit.now singular.now || is_same_text unit.now plural.now) }
{
    unit == singular || unit == plural
}
