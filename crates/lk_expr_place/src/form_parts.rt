ghost use Rattle.std.specs.Prelude.{◌≡◌, IfOk, IsOkAnd};
ghost use Rattle.lk_expr_place.specs.GrammarForms.{bracketed, chained, terminal_form, listed, mark, one_of, with_minus, word};

use lk_expr_token::{Keyword, Sign, Terminal, terminal_byte};
use lk_grammar::Form;
use lk_val::NoMemory;
use std::alloc::Global;

/// A token of the terminal.
pub(crate) fn terminal_form(terminal: Terminal) -> Form
    ensures { result ≡ terminal_form terminal }
{
    Form::byte(terminal_byte(terminal))
}

/// The keyword.
pub(crate) fn word(keyword: Keyword) -> Form
    ensures { result ≡ word keyword }
{
    terminal_form(Terminal::Word(keyword))
}

/// The sign.
pub(crate) fn mark(sign: Sign) -> Form
    ensures { result ≡ mark sign }
{
    terminal_form(Terminal::Sign(sign))
}

/// A token of one of the terminals.
pub(crate) fn one_of(alloc: Global, terminals: &[Terminal]) -> Result<Form, NoMemory>
    ensures { IfOk result (λ form. form ≡ one_of terminals.now) }
{
    match terminals.split_first() {
        None => Ok(Form::nothing()),
        Some((first, rest)) => Form::either(alloc, Ok(terminal_form(*first)), one_of(alloc, rest)),
    }
}

/// One or more operands, with a token of one of the terminals between each two.
pub(crate) fn chained(
    alloc: Global,
    joints: &[Terminal],
    operand: Result<Form, NoMemory>,
) -> Result<Form, NoMemory>
    ensures { IfOk result (λ form. IsOkAnd operand (λ one. form ≡ chained joints.now one)) }
{
    let operand = operand?;
    let link = Form::seq(alloc, one_of(alloc, joints), operand.share());
    Form::seq(alloc, Ok(operand), Form::many(alloc, link))
}

/// One or more items with commas between them.
pub(crate) fn listed(alloc: Global, item: Result<Form, NoMemory>) -> Result<Form, NoMemory>
    ensures { IfOk result (λ form. IsOkAnd item (λ one. form ≡ listed one)) }
{
    chained(alloc, &[Terminal::Sign(Sign::Comma)], item)
}

/// The form in brackets.
pub(crate) fn bracketed(alloc: Global, inside: Result<Form, NoMemory>) -> Result<Form, NoMemory>
    ensures { IfOk result (λ form. IsOkAnd inside (λ bare. form ≡ bracketed bare)) }
{
    let closed = Form::seq(alloc, inside, Ok(mark(Sign::Close)));
    Form::seq(alloc, Ok(mark(Sign::Open)), closed)
}

/// A minus before what the rule has, or the other form.
pub(crate) fn with_minus(
    alloc: Global,
    rule: usize,
    other: Result<Form, NoMemory>,
) -> Result<Form, NoMemory>
    ensures { IfOk result (λ form. IsOkAnd other (λ plain. form ≡ with_minus rule plain)) }
{
    let negated = Form::seq(alloc, Ok(mark(Sign::Minus)), Ok(Form::nested(rule)));
    Form::either(alloc, negated, other)
}
