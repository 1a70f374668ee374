ghost use Rattle.std.specs.Prelude.{◌≡◌, ◌≤◌, ◌<◌, ◌+◌, IfOk, false};
ghost use Rattle.lk_filter_date.specs.DateTexts.{separator, pair, numeral, each_from, numerals, four_times, fourths, month_length, month_form, in_year_form, leap_day_form, two_digits, some_digits, year_form, leap_form, date_form, count_form};
ghost use Rattle.lk_filter_date.specs.MonthDays.{AreMonthDays};

use crate::written::month_length;
use lk_grammar::Form;
use lk_val::NoMemory;
use std::alloc::Global;

/// The days that a month may have, by how many there are: each form is made once and shared.
#[derive(Drop)]
struct MonthDays {
    twenty_eight: Form,
    thirty: Form,
    thirty_one: Form,
}

impl MonthDays {
    fn new(alloc: Global) -> Result<MonthDays, NoMemory>
        ensures { IfOk result AreMonthDays }
    {
        Ok(MonthDays {
            twenty_eight: numerals_from(alloc, 1, 28)?,
            thirty: numerals_from(alloc, 1, 30)?,
            thirty_one: numerals_from(alloc, 1, 31)?,
        })
    }

    /// The days that a month of this number has in each year.
    fn of(&self, alloc: Global, month: u8) -> Result<Form, NoMemory>
        requires { AreMonthDays self.now }
        ensures { IfOk result (λ form. form ≡ numerals (month_length false month)) }
    {
        match month_length(false, u64::from(month)) {
            28 => self.twenty_eight.share(),
            30 => self.thirty.share(),
            31 => self.thirty_one.share(),
            length => numerals_from(alloc, 1, length as u8),
        }
    }
}

/// The form of dates: a year, a month or a day that exists.
#[tactic(auto, unfolding(crate::specs::DateTexts::date_form))]
pub(crate) fn date_form(alloc: Global) -> Result<Form, NoMemory>
    ensures { IfOk result (λ form. form ≡ date_form) }
{
    let part = Form::optional(alloc, in_year_form(alloc));
    let any_year = Form::seq(alloc, year_form(alloc), part);
    let leap_year = Form::seq(alloc, leap_form(alloc), leap_day_form(alloc));
    Form::either(alloc, any_year, leap_year)
}

/// The form of counts, from 1 to 10,000.
pub(crate) fn count_form(alloc: Global) -> Result<Form, NoMemory>
    ensures { IfOk result (λ form. form ≡ count_form) }
{
    let fourth = Form::optional(alloc, Ok(Form::range(b'0', b'9')));
    let third = Form::seq(alloc, Ok(Form::range(b'0', b'9')), fourth);
    let third = Form::optional(alloc, third);
    let second = Form::seq(alloc, Ok(Form::range(b'0', b'9')), third);
    let second = Form::optional(alloc, second);
    let up_to_four = Form::seq(alloc, Ok(Form::range(b'1', b'9')), second);
    Form::either(alloc, up_to_four, Form::exactly(alloc, b"10000"))
}

fn in_year_form(alloc: Global) -> Result<Form, NoMemory>
    ensures { IfOk result (λ form. form ≡ in_year_form) }
{
    let days = MonthDays::new(alloc)?;
    Form::seq(alloc, separator(alloc), months_from(alloc, &days, 1, 12))
}

fn leap_day_form(alloc: Global) -> Result<Form, NoMemory>
    ensures { IfOk result (λ form. form ≡ leap_day_form) }
{
    let day = Form::seq(alloc, separator(alloc), pair(alloc, 29));
    let month = Form::seq(alloc, numeral(alloc, 2), day);
    Form::seq(alloc, separator(alloc), month)
}

#[tactic(auto, using(crate::proofs::DateFormLaws::each_none, crate::proofs::DateFormLaws::each_some))]
fn months_from(alloc: Global, days: &MonthDays, first: u8, count: u8) -> Result<Form, NoMemory>
    requires days { AreMonthDays days.now }
    requires bound { first + count ≤ 100 }
    ensures { IfOk result (λ form. form ≡ each_from month_form first count) }
{
    if count == 0 {
        return Ok(Form::nothing());
    }
    let others = months_from(alloc, days, first + 1, count - 1);
    Form::either(alloc, month_form(alloc, days, first), others)
}

fn month_form(alloc: Global, days: &MonthDays, month: u8) -> Result<Form, NoMemory>
    requires days { AreMonthDays days.now }
    requires bound { month < 100 }
    ensures { IfOk result (λ form. form ≡ month_form month) }
{
    let day = Form::optional(
        alloc,
        Form::seq(alloc, separator(alloc), days.of(alloc, month)),
    );
    Form::seq(alloc, numeral(alloc, month), day)
}

#[tactic(auto, using(crate::proofs::DateFormLaws::each_none, crate::proofs::DateFormLaws::each_some))]
fn numerals_from(alloc: Global, first: u8, count: u8) -> Result<Form, NoMemory>
    requires { first + count ≤ 100 }
    ensures { IfOk result (λ form. form ≡ each_from numeral first count) }
{
    if count == 0 {
        return Ok(Form::nothing());
    }
    let others = numerals_from(alloc, first + 1, count - 1);
    Form::either(alloc, numeral(alloc, first), others)
}

/// A number in two digits, or in one where that is enough.
fn numeral(alloc: Global, number: u8) -> Result<Form, NoMemory>
    requires { number < 100 }
    ensures { IfOk result (λ form. form ≡ numeral number) }
{
    let single = if number <= 9 {
        Form::byte(b'0' + number)
    } else {
        Form::nothing()
    };
    Form::either(alloc, pair(alloc, number), Ok(single))
}

/// A number in two digits.
fn pair(alloc: Global, number: u8) -> Result<Form, NoMemory>
    requires { number < 100 }
    ensures { IfOk result (λ form. form ≡ pair number) }
{
    Form::seq(
        alloc,
        Ok(Form::byte(b'0' + number / 10)),
        Ok(Form::byte(b'0' + number % 10)),
    )
}

fn separator(alloc: Global) -> Result<Form, NoMemory>
    ensures { IfOk result (λ form. form ≡ separator) }
{
    Form::either(alloc, Ok(Form::byte(b'-')), Ok(Form::byte(b'/')))
}

fn year_form(alloc: Global) -> Result<Form, NoMemory>
    ensures { IfOk result (λ form. form ≡ year_form) }
{
    let late = Form::seq(alloc, some_digits(alloc), two_digits(alloc));
    let early = Form::seq(alloc, pair(alloc, 0), some_digits(alloc));
    Form::either(alloc, late, early)
}

fn leap_form(alloc: Global) -> Result<Form, NoMemory>
    ensures { IfOk result (λ form. form ≡ leap_form) }
{
    let plain = Form::seq(alloc, two_digits(alloc), fourths_from(alloc, 1, 24));
    let century = Form::seq(alloc, fourths_from(alloc, 1, 24), pair(alloc, 0));
    Form::either(alloc, plain, century)
}

#[tactic(auto, using(crate::proofs::DateFormLaws::each_none, crate::proofs::DateFormLaws::each_some))]
fn fourths_from(alloc: Global, first: u8, count: u8) -> Result<Form, NoMemory>
    requires { first + count ≤ 25 }
    ensures { IfOk result (λ form. form ≡ each_from four_times first count) }
{
    if count == 0 {
        return Ok(Form::nothing());
    }
    let others = fourths_from(alloc, first + 1, count - 1);
    Form::either(alloc, pair(alloc, 4 * first), others)
}

fn two_digits(alloc: Global) -> Result<Form, NoMemory>
    ensures { IfOk result (λ form. form ≡ two_digits) }
{
    Form::seq(
        alloc,
        Ok(Form::range(b'0', b'9')),
        Ok(Form::range(b'0', b'9')),
    )
}

/// Two digits that are not 00.
fn some_digits(alloc: Global) -> Result<Form, NoMemory>
    ensures { IfOk result (λ form. form ≡ some_digits) }
{
    let from_ten = Form::seq(
        alloc,
        Ok(Form::range(b'1', b'9')),
        Ok(Form::range(b'0', b'9')),
    );
    let below = Form::seq(alloc, Ok(Form::byte(b'0')), Ok(Form::range(b'1', b'9')));
    Form::either(alloc, from_ten, below)
}
