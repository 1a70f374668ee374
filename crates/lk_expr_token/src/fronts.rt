ghost use Rattle.std.specs.Prelude.{◌≡◌, IfOk, true, false};
ghost use Rattle.lk_grammar.specs.Forms.{IsText, is_live};
ghost use Rattle.lk_grammar.specs.Places.{IsPlace};
ghost use Rattle.lk_expr_token.specs.Tokens.{sign_text};
ghost use Rattle.lk_expr_token.specs.TokenFronts.{IsOfTerminal, is_unread};
ghost use Rattle.lk_expr_token.specs.TerminalForms.{bare_name, column, comparison, field, field_of, terminal_form, letter, measure_function, name, name_byte, quoted};

use crate::quoting::text_front;
use crate::terminal::Terminal;
use crate::token::{Sign, letters_of};
use lk_grammar::{Form, judge, unsigned_number};
use lk_val::NoMemory;
use std::alloc::Global;

/// The length of the longest front of the text that begins a token of the terminal: where a text that was to go on
/// with such a token goes wrong. Keywords and functions stand in any case, and a keyword begins a name, since
/// longer names go on from it. Nothing is said of `Terminal::Number` where a number comes first that no table may
/// hold. (lookd)
pub fn begun(alloc: Global, terminal: Terminal, text: &[u8]) -> Result<usize, NoMemory>
    ensures { IfOk result (λ n. (terminal ≡ Terminal.Number → is_unread text.now ≡ false)
        → IsPlace (IsOfTerminal terminal) text.now n) }
{
    match terminal_form(alloc, terminal)? {
        Some(form) => place_in(alloc, &form, text),
        None => Ok(text_front(text)),
    }
}

// The form of a terminal; texts have none.
#[tactic(auto, unfolding(crate::specs::TerminalForms::terminal_form))]
fn terminal_form(alloc: Global, terminal: Terminal) -> Result<Option<Form>, NoMemory>
    ensures { IfOk result (λ form. form ≡ terminal_form terminal) }
{
    let form = match terminal {
        Terminal::Word(keyword) => Form::letters(alloc, letters_of(keyword)),
        Terminal::Sign(sign) => Form::exactly(alloc, sign_text(sign)),
        Terminal::MeasureFunction => measure_function(alloc),
        Terminal::Name => bare_name(alloc),
        Terminal::Compare => comparison(alloc),
        Terminal::Number => unsigned_number(alloc),
        Terminal::Text => return Ok(None),
        Terminal::Column => column(alloc),
        Terminal::Field => field(alloc),
        Terminal::FieldOf => field_of(alloc),
    };
    Ok(Some(form?))
}

fn sign_text(sign: Sign) -> &'static [u8]
    ensures { result.now ≡ sign_text sign }
{
    match sign {
        Sign::Plus => b"+",
        Sign::Minus => b"-",
        Sign::Concat => b"||",
        Sign::Times => b"*",
        Sign::Over => b"/",
        Sign::Open => b"(",
        Sign::Close => b")",
        Sign::Comma => b",",
    }
}

// The names of the functions of measures, in any case.
fn measure_function(alloc: Global) -> Result<Form, NoMemory>
    ensures { IfOk result (λ form. form ≡ measure_function) }
{
    let coalesce = Form::letters(alloc, b"coalesce");
    Form::either(alloc, coalesce, Form::letters(alloc, b"nullif"))
}

// A bare name, which may be a keyword too.
fn bare_name(alloc: Global) -> Result<Form, NoMemory>
    ensures { IfOk result (λ form. form ≡ bare_name) }
{
    let more = Form::many(alloc, name_byte(alloc));
    Form::seq(alloc, letter(alloc), more)
}

fn name(alloc: Global) -> Result<Form, NoMemory>
    ensures { IfOk result (λ form. form ≡ name) }
{
    let more = Form::many(alloc, name_byte(alloc));
    Form::seq(alloc, name_byte(alloc), more)
}

fn name_byte(alloc: Global) -> Result<Form, NoMemory>
    ensures { IfOk result (λ form. form ≡ name_byte) }
{
    Form::either(alloc, letter(alloc), Ok(Form::range(b'0', b'9')))
}

// A letter or an underscore.
fn letter(alloc: Global) -> Result<Form, NoMemory>
    ensures { IfOk result (λ form. form ≡ letter) }
{
    let letters = Form::either(
        alloc,
        Ok(Form::range(b'a', b'z')),
        Ok(Form::range(b'A', b'Z')),
    );
    Form::either(alloc, letters, Ok(Form::byte(b'_')))
}

// The texts of the comparisons.
fn comparison(alloc: Global) -> Result<Form, NoMemory>
    ensures { IfOk result (λ form. form ≡ comparison) }
{
    let texts = Form::either(alloc, Form::exactly(alloc, b">="), Ok(Form::nothing()));
    let texts = Form::either(alloc, Form::exactly(alloc, b">"), texts);
    let texts = Form::either(alloc, Form::exactly(alloc, b"<="), texts);
    let texts = Form::either(alloc, Form::exactly(alloc, b"<"), texts);
    let texts = Form::either(alloc, Form::exactly(alloc, b"!="), texts);
    let texts = Form::either(alloc, Form::exactly(alloc, b"<>"), texts);
    Form::either(alloc, Form::exactly(alloc, b"="), texts)
}

// A column of the view's own table, bare or between quotes of two sorts.
fn column(alloc: Global) -> Result<Form, NoMemory>
    ensures { IfOk result (λ form. form ≡ column) }
{
    let table = Form::exactly(alloc, b"${TABLE}.");
    let quoted_name = Form::either(alloc, quoted(alloc, b'"'), quoted(alloc, b'`'));
    Form::seq(alloc, table, Form::either(alloc, name(alloc), quoted_name))
}

// A name between two bytes.
fn quoted(alloc: Global, quote: u8) -> Result<Form, NoMemory>
    ensures { IfOk result (λ form. form ≡ quoted quote) }
{
    let closed = Form::seq(alloc, name(alloc), Ok(Form::byte(quote)));
    Form::seq(alloc, Ok(Form::byte(quote)), closed)
}

// A field of the same view.
fn field(alloc: Global) -> Result<Form, NoMemory>
    ensures { IfOk result (λ form. form ≡ field) }
{
    let opening = Form::exactly(alloc, b"${");
    let closed = Form::seq(alloc, name(alloc), Ok(Form::byte(b'}')));
    Form::seq(alloc, opening, closed)
}

// A field of a view.
fn field_of(alloc: Global) -> Result<Form, NoMemory>
    ensures { IfOk result (λ form. form ≡ field_of) }
{
    let opening = Form::exactly(alloc, b"${");
    let closed = Form::seq(alloc, name(alloc), Ok(Form::byte(b'}')));
    let dotted = Form::seq(alloc, Ok(Form::byte(b'.')), closed);
    Form::seq(alloc, opening, Form::seq(alloc, name(alloc), dotted))
}

// The place of the text in a form in which nothing nests.
fn place_in(alloc: Global, form: &Form, text: &[u8]) -> Result<usize, NoMemory>
    ensures { is_live 0 0 form.now ≡ true → IfOk result (IsPlace (IsText form.now) text.now) }
{
    match judge(alloc, form, text)? {
        Some(place) => Ok(place),
        None => Ok(text.len()),
    }
}
