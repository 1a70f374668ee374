use crate::fault::CaseFault;
use crate::lists::Listed;
use crate::values::{add_cell, add_text};
use lk_val::{Cell, Frac};
use std::alloc::Global;

/// Adds a fraction in lowest terms, or the result of `a plus b`, `a less b`, `a times b`, `a over b` or `minus a`.
pub fn add_fraction(alloc: Global, text: &str, line: &mut String) -> Result<(), CaseFault> {
    match computed(text)? {
        Some(fraction) => add_cell(alloc, &Cell::Frac(fraction), line),
        None => Ok(line.push_str("none")?),
    }
}

/// Adds the number nearest to a fraction.
pub fn add_rounded(alloc: Global, text: &str, line: &mut String) -> Result<(), CaseFault> {
    match fraction_of(text)?.to_num() {
        Some(number) => add_text(number.print(alloc), line),
        None => Ok(line.push_str("none")?),
    }
}

fn computed(text: &str) -> Result<Option<Frac>, CaseFault> {
    match text.split_once(' ') {
        Some((first, rest)) => result(first, rest),
        None => Ok(Some(fraction_of(text)?)),
    }
}

// The result of what begins with a first word.
fn result(first: &str, rest: &str) -> Result<Option<Frac>, CaseFault> {
    if first == "minus" {
        return Ok(fraction_of(rest)?.neg());
    }
    let Some((sign, second)) = rest.split_once(' ') else {
        return Err(CaseFault::NoSuchCase);
    };
    result_of(fraction_of(first)?, sign, fraction_of(second)?)
}

fn result_of(a: Frac, sign: &str, b: Frac) -> Result<Option<Frac>, CaseFault> {
    match sign {
        "plus" => Ok(a.add(b)),
        "less" => Ok(a.sub(b)),
        "times" => Ok(a.mul(b)),
        "over" => Ok(a.div(b)),
        _ => Err(CaseFault::NoSuchCase),
    }
}

/// The fraction that a word writes as `n/d` or `n`, for d above 0.
pub fn fraction_of(word: &str) -> Result<Frac, CaseFault> {
    let (above, below) = word.split_once('/').unwrap_or((word, "1"));
    let above = whole_of(above)?;
    let below = whole_of(below)?;
    if below > 0 {
        Ok(Frac::new(above, below))
    } else {
        Err(CaseFault::NoSuchCase)
    }
}

/// The whole number that a word writes.
pub fn whole_of(word: &str) -> Result<i128, CaseFault> {
    word.parse::<i128>().or(Err(CaseFault::NoSuchCase))
}

impl Listed for Frac {
    fn read(_: Global, text: &str) -> Result<Frac, CaseFault> {
        fraction_of(text)
    }
}
