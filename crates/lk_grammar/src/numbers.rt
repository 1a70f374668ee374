ghost use Rattle.std.specs.Prelude.{◌≡◌, ◌≤◌, ℕ, List, true, IfOk, length};
ghost use Rattle.lk_grammar.specs.Literals.{IsLiteralReader};
ghost use Rattle.lk_grammar.specs.Numbers.{digits, unsigned_number, number, digit_count, places_length, unsigned_length, signed_length, number_length, is_of_number, begins_no_digit, begins_no_number, are_low};

use crate::form::Form;
use crate::literals::Literals;
use lk_val::NoMemory;
use std::alloc::Global;

/// Numbers with or without a `-`: digits, and behind a dot digits again.
#[derive(Clone, Copy)]
pub struct Numbers;

impl Literals for Numbers {
    ghost use Rattle.lk_grammar.specs.Numbers.{number_length};

    ghost length_of = { λ _. number_length };

    fn length(&self, text: &[u8]) -> usize {
        number_length(text)
    }
}

/// Numbers without a sign.
#[derive(Clone, Copy)]
pub struct UnsignedNumbers;

impl Literals for UnsignedNumbers {
    ghost use Rattle.lk_grammar.specs.Numbers.{unsigned_length};

    ghost length_of = { λ _. unsigned_length };

    fn length(&self, text: &[u8]) -> usize {
        unsigned_length(text)
    }
}

/// The form of numbers.
pub fn number(alloc: Global) -> Result<Form, NoMemory>
    ensures { IfOk result (λ form. form ≡ number) }
{
    let sign = Form::optional(alloc, Ok(Form::byte(b'-')));
    Form::seq(alloc, sign, unsigned_number(alloc))
}

/// The form of numbers without a sign.
pub fn unsigned_number(alloc: Global) -> Result<Form, NoMemory>
    ensures { IfOk result (λ form. form ≡ unsigned_number) }
{
    let places = Form::seq(alloc, Ok(Form::byte(b'.')), digits(alloc));
    Form::seq(alloc, digits(alloc), Form::optional(alloc, places))
}

/// One digit or more.
fn digits(alloc: Global) -> Result<Form, NoMemory>
    ensures { IfOk result (λ form. form ≡ digits) }
{
    let more = Form::many(alloc, Ok(Form::range(b'0', b'9')));
    Form::seq(alloc, Ok(Form::range(b'0', b'9')), more)
}

/// The longest number in front of a text is found, with or without a sign, where no space is a digit or a `-`.
pub fn numbers_are_literals()
    ensures signed { (white : List ℕ) → are_low white ≡ true → IsLiteralReader white number is_of_number begins_no_number number_length }
    ensures unsigned { (white : List ℕ) → are_low white ≡ true → IsLiteralReader white unsigned_number is_of_number begins_no_digit unsigned_length }
{}

fn number_length(text: &[u8]) -> usize
    ensures exact { result ≡ number_length text.now }
    ensures within { result ≤ length text.now }
{
    match text.split_first() {
        Some((b'-', unsigned)) => {
            let length = unsigned_length(unsigned);
            if length == 0 { 0 } else { 1 + length }
        }
        _ => unsigned_length(text),
    }
}

fn unsigned_length(text: &[u8]) -> usize
    ensures exact { result ≡ unsigned_length text.now }
    ensures within { result ≤ length text.now }
{
    let whole = digit_count(text);
    if whole == 0 {
        return 0;
    }
    whole + places_length(&text[whole..])
}

fn places_length(text: &[u8]) -> usize
    ensures exact { result ≡ places_length text.now }
    ensures within { result ≤ length text.now }
{
    match text.split_first() {
        Some((b'.', behind)) => {
            let places = digit_count(behind);
            if places == 0 { 0 } else { 1 + places }
        }
        _ => 0,
    }
}

fn digit_count(text: &[u8]) -> usize
    ensures exact { result ≡ digit_count text.now }
    ensures within { result ≤ length text.now }
{
    let mut count = 0;
    for byte in text {
        if !byte.is_ascii_digit() {
            return count;
        }
        count += 1;
    }
    count
}
