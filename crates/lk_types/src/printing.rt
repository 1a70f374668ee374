ghost use Rattle.std.specs.Prelude.{◌≡◌, ◌<◌, ◌^◌, ◌++◌, ◌≤ℤ◌, pos, neg_ℤ, IfOk, Some, None, codes, string_bytes};
ghost use Rattle.std.specs.Fmt.{signed_decimal};
ghost use Rattle.std.specs.List.{position};
ghost use Rattle.lk_types.specs.Printing.{cell_json, cell_text, value_text, shaped_text, frame_text, tier_text, tier_below, is_bound_above, bound_at, fraction_text, date_text, month_text, quarter_text, year_text, time_text, two_digits, four_digits};
ghost use Rattle.lk_val.specs.declared.value.Value.TheVariants as value;

use crate::calendar::{
    day_of_moment, day_of_month, from_year_one, month_of, second_of_moment, year_of,
};
use crate::explore::Shape;
use crate::schema::Frame;
use lk_val::{Cell, Frac, NoMemory, Num, Text, Value, print_count};
use std::alloc::Global;

/// The printed form of a cell in a column of a shape: null as nothing, a count in decimal, a number or sum in
/// its shortest form, a fraction as `n/d`, a tier by its label, a month, quarter or year as `2024-02`, `2024-Q1`
/// or `2024`. Days and moments are those of years 1 to 9999.
pub fn print_cell(alloc: Global, cell: &Cell, shape: &Shape) -> Result<Text, NoMemory>
    ensures { IfOk result (λ text. text ≡ cell_text shape.now cell.now) }
{
    match cell {
        Cell::Value(value) => print_shaped(alloc, value, shape),
        Cell::Count(count) => Ok(Text::from_string(format!(in alloc; "{count}")?)),
        Cell::Sum(sum) => print_count(alloc, *sum),
        Cell::Frac(fraction) => print_fraction(alloc, fraction),
    }
}

/// The cell in JSON: its printed form, and none for null. The null of a tier has a name, as in CSV.
pub fn print_json(alloc: Global, cell: &Cell, shape: &Shape) -> Result<Option<Text>, NoMemory>
    ensures { IfOk result (λ text. text ≡ cell_json shape.now cell.now) }
{
    match (shape, cell) {
        (Shape::Tier(_), _) => Ok(Some(print_cell(alloc, cell, shape)?)),
        (_, Cell::Value(Value::Null)) => Ok(None),
        _ => Ok(Some(print_cell(alloc, cell, shape)?)),
    }
}

fn print_shaped(alloc: Global, value: &Value, shape: &Shape) -> Result<Text, NoMemory>
    ensures { IfOk result (λ text. text ≡ shaped_text shape.now value.now) }
{
    match shape {
        Shape::Plain => print_value(alloc, value),
        Shape::Tier(bounds) => match value {
            Value::Num(num) => print_tier(alloc, bounds.as_slice(), num),
            _ => Text::from_str(alloc, "Undefined"),
        },
        Shape::Frame(_, frame) => print_framed(alloc, value, *frame),
    }
}

fn print_framed(alloc: Global, value: &Value, frame: Frame) -> Result<Text, NoMemory>
    ensures { IfOk result (λ text. text ≡ frame_text frame value.now) }
{
    match (frame, value) {
        (Frame::Month, Value::Day(day)) => print_month(alloc, from_year_one(i64::from(*day))),
        (Frame::Quarter, Value::Day(day)) => print_quarter(alloc, from_year_one(i64::from(*day))),
        (Frame::Year, Value::Day(day)) => print_year(alloc, from_year_one(i64::from(*day))),
        _ => print_value(alloc, value),
    }
}

// The month of a day, from 0001-01-01, as `YYYY-MM`.
#[tactic(auto, unfolding(crate::specs::Printing::month_text))]
fn print_month(alloc: Global, day: u64) -> Result<Text, NoMemory>
    requires { day < 2 ^ 50 }
    ensures { IfOk result (λ text. text ≡ month_text day) }
{
    let year = year_of(day);
    let year_text = print_four(alloc, year)?;
    let month_text = print_two(alloc, month_of(year, day))?;
    Ok(Text::from_string(format!(in alloc; "{year_text}-{month_text}")?))
}

// The quarter of a day, from 0001-01-01, as `YYYY-Qn`.
#[tactic(auto, unfolding(crate::specs::Printing::quarter_text))]
fn print_quarter(alloc: Global, day: u64) -> Result<Text, NoMemory>
    requires { day < 2 ^ 50 }
    ensures { IfOk result (λ text. text ≡ quarter_text day) }
{
    let year = year_of(day);
    let year_text = print_four(alloc, year)?;
    let quarter = (month_of(year, day) + 2) / 3;
    Ok(Text::from_string(format!(in alloc; "{year_text}-Q{quarter}")?))
}

// The year of a day, from 0001-01-01, as `YYYY`.
#[tactic(auto, unfolding(crate::specs::Printing::year_text))]
fn print_year(alloc: Global, day: u64) -> Result<Text, NoMemory>
    requires { day < 2 ^ 50 }
    ensures { IfOk result (λ text. text ≡ year_text day) }
{
    Ok(Text::from_string(print_four(alloc, year_of(day))?))
}

// The label of the tier that a number is in.
fn print_tier(alloc: Global, bounds: &[i64], num: &Num) -> Result<Text, NoMemory>
    ensures { IfOk result (λ text. text ≡ tier_text bounds.now num.now.0) }
{
    print_tier_at(alloc, bounds, find_bound_above(bounds, num))
}

fn find_bound_above(bounds: &[i64], num: &Num) -> Option<usize>
    ensures { result ≡ position (is_bound_above num.now.0) bounds.now }
{
    bounds
        .iter()
        .position(|bound| i128::from(num.0) < i128::from(*bound) * 10000)
}

fn print_tier_at(alloc: Global, bounds: &[i64], above: Option<usize>) -> Result<Text, NoMemory>
    ensures { IfOk result (λ text. text ≡ tier_below bounds.now above) }
{
    match above {
        None => print_last_tier(alloc, bounds),
        Some(0) => print_first_tier(alloc, bounds),
        Some(i) => print_tier_below(alloc, bounds, i),
    }
}

#[tactic(auto, unfolding(crate::specs::Printing::tier_below))]
fn print_last_tier(alloc: Global, bounds: &[i64]) -> Result<Text, NoMemory>
    ensures { IfOk result (λ text. text ≡ tier_below bounds.now None) }
{
    let last = bound_at(bounds, bounds.len().saturating_sub(1));
    Ok(Text::from_string(format!(in alloc; "{last} or Above")?))
}

#[tactic(auto, unfolding(crate::specs::Printing::tier_below))]
fn print_first_tier(alloc: Global, bounds: &[i64]) -> Result<Text, NoMemory>
    ensures { IfOk result (λ text. text ≡ tier_below bounds.now (Some 0)) }
{
    let first = bound_at(bounds, 0);
    Ok(Text::from_string(format!(in alloc; "Below {first}")?))
}

// The tier between two bounds, of which the upper one has the number `i`.
#[tactic(auto, unfolding(crate::specs::Printing::tier_below))]
fn print_tier_below(alloc: Global, bounds: &[i64], i: usize) -> Result<Text, NoMemory>
    requires { 0 < i }
    ensures { IfOk result (λ text. text ≡ tier_below bounds.now (Some i)) }
{
    let from = bound_at(bounds, i - 1);
    let to = bound_at(bounds, i) - 1;
    Ok(Text::from_string(print_between(alloc, from, to)?))
}

fn print_between(alloc: Global, from: i128, to: i128) -> Result<String, NoMemory>
    ensures { IfOk result (λ text. string_bytes text ≡ signed_decimal from ++ codes " to " ++ signed_decimal to) }
{
    Ok(format!(in alloc; "{from} to {to}")?)
}

fn bound_at(bounds: &[i64], i: usize) -> i128
    ensures value { result ≡ bound_at bounds.now i }
    ensures low { neg_ℤ (pos (2 ^ 63)) ≤ℤ result }
{
    if i < bounds.len() {
        i128::from(bounds[i])
    } else {
        0
    }
}

fn print_value(alloc: Global, value: &Value) -> Result<Text, NoMemory>
    ensures { IfOk result (λ text. text ≡ value_text value.now) }
{
    match value {
        Value::Null => Ok(Text::new(alloc)),
        Value::Text(text) => text.copy(alloc),
        Value::Num(num) => num.print(alloc),
        Value::Truth(true) => Text::from_str(alloc, "Yes"),
        Value::Truth(false) => Text::from_str(alloc, "No"),
        Value::Day(day) => Ok(Text::from_string(print_date(
            alloc,
            from_year_one(i64::from(*day)),
        )?)),
        Value::Moment(moment) => print_moment(alloc, *moment),
    }
}

fn print_fraction(alloc: Global, fraction: &Frac) -> Result<Text, NoMemory>
    ensures { IfOk result (λ text. text ≡ fraction_text fraction.now) }
{
    let n = fraction.numerator();
    let d = fraction.denominator();
    if d == 1 {
        return Ok(Text::from_string(format!(in alloc; "{n}")?));
    }
    Ok(Text::from_string(print_quotient(alloc, n, d)?))
}

fn print_quotient(alloc: Global, n: i128, d: i128) -> Result<String, NoMemory>
    ensures { IfOk result (λ text. string_bytes text ≡ signed_decimal n ++ codes "/" ++ signed_decimal d) }
{
    Ok(format!(in alloc; "{n}/{d}")?)
}

fn print_moment(alloc: Global, moment: i64) -> Result<Text, NoMemory>
    ensures { IfOk result (λ text. text ≡ value_text (value.Moment moment)) }
{
    let date = print_date(alloc, from_year_one(day_of_moment(moment)))?;
    let time = print_time(alloc, second_of_moment(moment))?;
    Ok(Text::from_string(format!(in alloc; "{date} {time}")?))
}

// The day, from 0001-01-01, as `YYYY-MM-DD`.
#[tactic(auto, unfolding(crate::specs::Printing::date_text))]
fn print_date(alloc: Global, day: u64) -> Result<String, NoMemory>
    requires { day < 2 ^ 50 }
    ensures { IfOk result (λ text. string_bytes text ≡ date_text day) }
{
    let year = year_of(day);
    let year_text = print_four(alloc, year)?;
    let month_text = print_two(alloc, month_of(year, day))?;
    let day_text = print_two(alloc, day_of_month(day))?;
    Ok(format!(in alloc; "{year_text}-{month_text}-{day_text}")?)
}

// The second of a day as `HH:MM:SS`.
#[tactic(auto, unfolding(crate::specs::Printing::time_text))]
fn print_time(alloc: Global, second: u64) -> Result<String, NoMemory>
    ensures { IfOk result (λ text. string_bytes text ≡ time_text second) }
{
    let hours = print_two(alloc, second / 3600)?;
    let minutes = print_two(alloc, second / 60 % 60)?;
    let seconds = print_two(alloc, second % 60)?;
    Ok(format!(in alloc; "{hours}:{minutes}:{seconds}")?)
}

fn print_two(alloc: Global, n: u64) -> Result<String, NoMemory>
    ensures { IfOk result (λ text. string_bytes text ≡ two_digits n) }
{
    let tens = n / 10 % 10;
    let ones = n % 10;
    Ok(format!(in alloc; "{tens}{ones}")?)
}

fn print_four(alloc: Global, n: u64) -> Result<String, NoMemory>
    ensures { IfOk result (λ text. string_bytes text ≡ four_digits n) }
{
    let thousands = n / 1000;
    let hundreds = n / 100 % 10;
    let rest = print_two(alloc, n)?;
    Ok(format!(in alloc; "{thousands}{hundreds}{rest}")?)
}
