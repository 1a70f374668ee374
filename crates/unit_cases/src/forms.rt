// Grammars as values, and where texts stop being of one.

use crate::fault::CaseFault;
use lk_grammar::{Form, judge, judge_nested};
use lk_val::NoMemory;
use std::alloc::Global;

/// Adds the place of a text in the form of this name.
pub fn add_judged(
    alloc: Global,
    name: &str,
    text: &str,
    line: &mut String,
) -> Result<(), CaseFault> {
    let form = form_of(alloc, name)?;
    add_place(judge(alloc, &form, text.as_bytes())?, line)
}

fn form_of(alloc: Global, name: &str) -> Result<Form, CaseFault> {
    match name {
        "none" => Ok(Form::nothing()),
        "z to a" => Ok(Form::range(b'z', b'a')),
        "< or <= and a digit" => Ok(compared_digit(alloc)?),
        "many a or bc" => Ok(many_of(alloc, Form::exactly(alloc, b"bc"))?),
        "many a or a" => Ok(many_of(alloc, Ok(Form::byte(b'a')))?),
        "a rule that is missing" => Ok(Form::nested(0)),
        _ => Err(CaseFault::NoSuchCase),
    }
}

/// Adds the place of a text in the form of a digit within brackets, which nest to a depth.
pub fn add_in_brackets(
    alloc: Global,
    depth: &str,
    text: &str,
    line: &mut String,
) -> Result<(), CaseFault> {
    let depth = depth.parse::<usize>().or(Err(CaseFault::NoSuchCase))?;
    let rules = [bracketed(alloc)?];
    let place = judge_nested(alloc, &rules, depth, &bracketed(alloc)?, text.as_bytes())?;
    add_place(place, line)
}

fn add_place(place: Option<usize>, line: &mut String) -> Result<(), CaseFault> {
    match place {
        None => Ok(line.push_str("stands")?),
        Some(place) => Ok(write!(line, "stops at {place}")?),
    }
}

// A digit, or rule 0 in brackets.
fn bracketed(alloc: Global) -> Result<Form, NoMemory> {
    let closed = Form::seq(alloc, Ok(Form::nested(0)), Ok(Form::byte(b')')));
    let nested = Form::seq(alloc, Ok(Form::byte(b'(')), closed);
    Form::either(alloc, Ok(Form::range(b'0', b'9')), nested)
}

// `<` or `<=`, with spaces before it, and a digit.
fn compared_digit(alloc: Global) -> Result<Form, NoMemory> {
    let less = Form::word(alloc, b" ", b"<");
    let at_most = Form::word(alloc, b" ", b"<=");
    let order = Form::either(alloc, less, at_most);
    Form::seq(alloc, order, Ok(Form::range(b'0', b'9')))
}

// Any number of an `a` or the other form.
fn many_of(alloc: Global, other: Result<Form, NoMemory>) -> Result<Form, NoMemory> {
    Form::many(alloc, Form::either(alloc, Ok(Form::byte(b'a')), other))
}
