ghost use Rattle.std.specs.Prelude.{◌≡◌, ◌≤◌, ◌∷◌, [], false, IfOk, length};
ghost use Rattle.lk_grammar.specs.Forms.{IsText, seq, either, many, optional};
ghost use Rattle.lk_grammar.specs.Places.{Judges};
ghost use Rattle.lk_filter_number.specs.Numbers.{IsNumbers, IsNumbersPlace, is_number_byte, is_unread};
ghost use Rattle.lk_filter_number.specs.NumberReading.{any_word, written_number, order_form, compared_form, comparisons_form, from_form, up_to_form, end_form, interval_form, range_form, item_form, further_form, number_form, unread_from, before_place};

use crate::number::meaning::num_at;
use lk_grammar::{Form, Literals, Numbers, judge, listed, number};
use lk_val::NoMemory;
use std::alloc::Global;

/// The place of a text that is no filter of numbers.
pub fn place_of_numbers(alloc: Global, text: &[u8]) -> Result<usize, NoMemory>
    ensures { IfOk result (IsNumbersPlace text.now) }
{
    let place = judge_numbers(alloc, text)?.unwrap_or(text.len());
    match unread_from(text) {
        None => Ok(place),
        Some(unread) => Ok(place.min(unread)),
    }
}

/// The first byte of the first number of the text that is not read.
fn unread_from(text: &[u8]) -> Option<usize>
    ensures { result ≡ unread_from false text.now }
{
    let mut inside = false;
    let mut rest = text;
    let mut place = 0;
    while let Some((byte, behind)) = rest.split_first() {
        if !inside && is_unread(rest) {
            return Some(place);
        }
        inside = is_number_byte(*byte);
        rest = behind;
        place += 1;
    }
    None
}

fn is_unread(text: &[u8]) -> bool
    ensures { result ≡ is_unread text.now }
{
    let length = Numbers.length(text);
    if length == 0 {
        return false;
    }
    num_at(&text[..length]).is_none()
}

fn is_number_byte(byte: u8) -> bool
    ensures { result ≡ is_number_byte byte }
{
    byte.is_ascii_digit() || byte == b'.' || byte == b'-'
}

/// The place of a text in the grammar of filters of numbers, whatever numbers are read, and none where it is of it.
fn judge_numbers(alloc: Global, text: &[u8]) -> Result<Option<usize>, NoMemory>
    ensures { IfOk result (Judges IsNumbers text.now) }
{
    judge_number_form(alloc, text)
}

#[tactic(auto, unfolding(crate::specs::NumberReading::number_form))]
fn judge_number_form(alloc: Global, text: &[u8]) -> Result<Option<usize>, NoMemory>
    ensures { IfOk result (Judges (IsText number_form) text.now) }
{
    judge(alloc, &number_form(alloc)?, text)
}

#[tactic(auto, unfolding(crate::specs::NumberReading::number_form))]
fn number_form(alloc: Global) -> Result<Form, NoMemory>
    ensures { IfOk result (λ form. form ≡ number_form) }
{
    let item = item_form(alloc);
    let between = Form::either(
        alloc,
        Form::word(alloc, b" ", b","),
        Form::word(alloc, b" ", b"or"),
    );
    let further = Form::seq(alloc, between, item_form(alloc));
    listed(alloc, b" ", item, further)
}

fn item_form(alloc: Global) -> Result<Form, NoMemory>
    ensures { IfOk result (λ form. form ≡ item_form) }
{
    let not = Form::optional(alloc, Form::word(alloc, b" ", b"not"));
    let tested = Form::either(alloc, range_form(alloc), Form::word(alloc, b" ", b"null"));
    let differs = Form::either(
        alloc,
        Form::word(alloc, b" ", b"<>"),
        Form::word(alloc, b" ", b"!="),
    );
    let differs = Form::seq(alloc, differs, written_number(alloc));
    Form::either(alloc, Form::seq(alloc, not, tested), differs)
}

fn range_form(alloc: Global) -> Result<Form, NoMemory>
    ensures { IfOk result (λ form. form ≡ range_form) }
{
    let others = Form::either(alloc, comparisons_form(alloc), interval_form(alloc));
    let others = Form::either(alloc, up_to_form(alloc), others);
    Form::either(alloc, from_form(alloc), others)
}

fn from_form(alloc: Global) -> Result<Form, NoMemory>
    ensures { IfOk result (λ form. form ≡ from_form) }
{
    let high = Form::optional(alloc, written_number(alloc));
    let to = Form::seq(alloc, Form::word(alloc, b" ", b"to"), high);
    Form::seq(alloc, written_number(alloc), Form::optional(alloc, to))
}

fn up_to_form(alloc: Global) -> Result<Form, NoMemory>
    ensures { IfOk result (λ form. form ≡ up_to_form) }
{
    Form::seq(alloc, Form::word(alloc, b" ", b"to"), written_number(alloc))
}

fn comparisons_form(alloc: Global) -> Result<Form, NoMemory>
    ensures { IfOk result (λ form. form ≡ comparisons_form) }
{
    let further = Form::seq(alloc, Form::word(alloc, b" ", b"and"), compared_form(alloc));
    Form::seq(alloc, compared_form(alloc), Form::many(alloc, further))
}

fn compared_form(alloc: Global) -> Result<Form, NoMemory>
    ensures { IfOk result (λ form. form ≡ compared_form) }
{
    let strict = Form::either(
        alloc,
        Form::word(alloc, b" ", b"<"),
        Form::word(alloc, b" ", b">"),
    );
    let order = Form::either(alloc, Form::word(alloc, b" ", b">="), strict);
    let order = Form::either(alloc, Form::word(alloc, b" ", b"<="), order);
    Form::seq(alloc, order, written_number(alloc))
}

fn interval_form(alloc: Global) -> Result<Form, NoMemory>
    ensures { IfOk result (λ form. form ≡ interval_form) }
{
    let close = Form::either(
        alloc,
        Form::word(alloc, b" ", b"]"),
        Form::word(alloc, b" ", b")"),
    );
    let high = Form::seq(alloc, end_form(alloc), close);
    let high = Form::seq(alloc, Form::word(alloc, b" ", b","), high);
    let low = Form::seq(alloc, end_form(alloc), high);
    let open = Form::either(
        alloc,
        Form::word(alloc, b" ", b"["),
        Form::word(alloc, b" ", b"("),
    );
    Form::seq(alloc, open, low)
}

fn end_form(alloc: Global) -> Result<Form, NoMemory>
    ensures { IfOk result (λ form. form ≡ end_form) }
{
    let infinite = Form::either(
        alloc,
        Form::word(alloc, b" ", b"inf"),
        Form::word(alloc, b" ", b"-inf"),
    );
    Form::either(alloc, written_number(alloc), infinite)
}

fn written_number(alloc: Global) -> Result<Form, NoMemory>
    ensures { IfOk result (λ form. form ≡ written_number) }
{
    Form::free(alloc, b" ", number(alloc))
}
