ghost use Rattle.std.specs.Prelude.{◌≡◌, IfOk, IsOkAnd};
ghost use Rattle.lk_grammar.specs.Forms.{IsText, byte, seq, either, many};
ghost use Rattle.lk_grammar.specs.Places.{Judges};
ghost use Rattle.lk_filter_text.specs.Characters.{later, long_character, letter_byte, letter_form};
ghost use Rattle.lk_filter_text.specs.Texts.{IsTexts};
ghost use Rattle.lk_filter_text.specs.TextReading.{blanks, mark_form, first_form, solid_form, pattern_form, item_form, further_form, text_form};

use lk_grammar::{Form, judge};
use lk_val::NoMemory;
use std::alloc::Global;

/// The place of a text as a filter of texts, and none where it is one.
pub fn judge_texts(alloc: Global, text: &[u8]) -> Result<Option<usize>, NoMemory>
    ensures { IfOk result (Judges IsTexts text.now) }
{
    judge_text_form(alloc, text)
}

#[tactic(auto, unfolding(crate::specs::TextReading::text_form))]
fn judge_text_form(alloc: Global, text: &[u8]) -> Result<Option<usize>, NoMemory>
    ensures { IfOk result (Judges (IsText text_form) text.now) }
{
    judge(alloc, &text_form(alloc)?, text)
}

#[tactic(auto, unfolding(crate::specs::TextReading::text_form))]
fn text_form(alloc: Global) -> Result<Form, NoMemory>
    ensures { IfOk result (λ form. form ≡ text_form) }
{
    let further = Form::seq(alloc, Form::letters(alloc, b","), item_form(alloc));
    let further = Form::many(alloc, further);
    let items = Form::seq(alloc, item_form(alloc), further);
    Form::either(alloc, blanks(alloc), items)
}

fn item_form(alloc: Global) -> Result<Form, NoMemory>
    ensures { IfOk result (λ form. form ≡ item_form) }
{
    let excluded = pattern_form(alloc, solid_form(alloc));
    let excluded = Form::seq(alloc, blanks(alloc), excluded);
    let excluded = Form::seq(alloc, Ok(Form::byte(b'-')), excluded);
    let included = pattern_form(alloc, first_form(alloc));
    let item = Form::either(alloc, excluded, included);
    let item = Form::seq(alloc, item, blanks(alloc));
    Form::seq(alloc, blanks(alloc), item)
}

fn pattern_form(alloc: Global, first: Result<Form, NoMemory>) -> Result<Form, NoMemory>
    ensures { IfOk result (λ form. IsOkAnd first (λ begun. form ≡ pattern_form begun)) }
{
    let further = Form::seq(alloc, blanks(alloc), solid_form(alloc));
    Form::seq(alloc, first, Form::many(alloc, further))
}

fn solid_form(alloc: Global) -> Result<Form, NoMemory>
    ensures { IfOk result (λ form. form ≡ solid_form) }
{
    Form::either(alloc, Ok(Form::byte(b'-')), first_form(alloc))
}

fn first_form(alloc: Global) -> Result<Form, NoMemory>
    ensures { IfOk result (λ form. form ≡ first_form) }
{
    Form::either(alloc, mark_form(alloc), letter_form(alloc))
}

fn mark_form(alloc: Global) -> Result<Form, NoMemory>
    ensures { IfOk result (λ form. form ≡ mark_form) }
{
    let marks = Form::letters(alloc, b"^^");
    let marks = Form::either(alloc, Form::letters(alloc, b"^-"), marks);
    let marks = Form::either(alloc, Form::letters(alloc, b"^\""), marks);
    let marks = Form::either(alloc, Form::letters(alloc, b"^_"), marks);
    let marks = Form::either(alloc, Form::letters(alloc, b"^%"), marks);
    let marks = Form::either(alloc, Form::letters(alloc, b"^ "), marks);
    let marks = Form::either(alloc, Form::letters(alloc, b"^,"), marks);
    Form::either(alloc, Form::letters(alloc, b"%"), marks)
}

fn letter_form(alloc: Global) -> Result<Form, NoMemory>
    ensures { IfOk result (λ form. form ≡ letter_form) }
{
    Form::either(alloc, letter_byte(alloc), long_character(alloc))
}

fn letter_byte(alloc: Global) -> Result<Form, NoMemory>
    ensures { IfOk result (λ form. form ≡ letter_byte) }
{
    let bytes = Form::either(alloc, Ok(Form::range(46, 93)), Ok(Form::range(95, 127)));
    let bytes = Form::either(alloc, Ok(Form::range(38, 43)), bytes);
    let bytes = Form::either(alloc, Ok(Form::range(33, 36)), bytes);
    Form::either(alloc, Ok(Form::range(0, 31)), bytes)
}

fn long_character(alloc: Global) -> Result<Form, NoMemory>
    ensures { IfOk result (λ form. form ≡ long_character) }
{
    let long = four_bytes(alloc, 244, 244, 128, 143);
    let long = Form::either(alloc, four_bytes(alloc, 241, 243, 128, 191), long);
    let long = Form::either(alloc, four_bytes(alloc, 240, 240, 144, 191), long);
    let long = Form::either(alloc, three_bytes(alloc, 238, 239, 128, 191), long);
    let long = Form::either(alloc, three_bytes(alloc, 237, 237, 128, 159), long);
    let long = Form::either(alloc, three_bytes(alloc, 225, 236, 128, 191), long);
    let long = Form::either(alloc, three_bytes(alloc, 224, 224, 160, 191), long);
    Form::either(alloc, two_bytes(alloc, 194, 223), long)
}

fn two_bytes(alloc: Global, low: u8, high: u8) -> Result<Form, NoMemory>
    ensures { IfOk result (λ form. form ≡ seq (byte low high) later) }
{
    Form::seq(alloc, Ok(Form::range(low, high)), Ok(Form::range(128, 191)))
}

fn three_bytes(alloc: Global, low: u8, high: u8, from: u8, upto: u8) -> Result<Form, NoMemory>
    ensures { IfOk result (λ form. form ≡ seq (byte low high) (seq (byte from upto) later)) }
{
    Form::seq(
        alloc,
        Ok(Form::range(low, high)),
        two_bytes(alloc, from, upto),
    )
}

fn four_bytes(alloc: Global, low: u8, high: u8, from: u8, upto: u8) -> Result<Form, NoMemory>
    ensures { IfOk result (λ form. form ≡ seq (byte low high) (seq (byte from upto) (seq later later))) }
{
    Form::seq(
        alloc,
        Ok(Form::range(low, high)),
        three_bytes(alloc, from, upto, 128, 191),
    )
}

fn blanks(alloc: Global) -> Result<Form, NoMemory>
    ensures { IfOk result (λ form. form ≡ blanks) }
{
    Form::many(alloc, Ok(Form::byte(b' ')))
}
