// Values and cells as a line writes them, and as they are printed.

use crate::fault::CaseFault;
use crate::fractions::{fraction_of, whole_of};
use crate::lists::Listed;
use lk_cell::{read_day, read_moment};
use lk_types::{Shape, print_cell};
use lk_val::{Cell, NoMemory, Num, Text, Value};
use std::alloc::Global;

/// The value that a word writes: `null`, `yes`, `no`, a number, a day, a moment as `2024-01-31T23:59:59`, `day number N`
/// and `moment number N`, which count days and seconds from 1970-01-01, and else a text.
pub fn value_of(alloc: Global, word: &str) -> Result<Value, CaseFault> {
    match word.split_once(" number ") {
        Some((kind, number)) => numbered(kind, number),
        None => plain_value_of(alloc, word),
    }
}

fn numbered(kind: &str, number: &str) -> Result<Value, CaseFault> {
    match kind {
        "day" => Ok(Value::Day(number.parse::<i32>().or(Err(CaseFault::NoSuchCase))?)),
        "moment" => Ok(Value::Moment(number.parse::<i64>().or(Err(CaseFault::NoSuchCase))?)),
        _ => Err(CaseFault::NoSuchCase),
    }
}

fn plain_value_of(alloc: Global, word: &str) -> Result<Value, CaseFault> {
    match word {
        "null" => Ok(Value::Null),
        "yes" => Ok(Value::Truth(true)),
        "no" => Ok(Value::Truth(false)),
        word => read_value(alloc, word),
    }
}

fn read_value(alloc: Global, word: &str) -> Result<Value, CaseFault> {
    if let Ok(number) = Num::read(word.as_bytes()) {
        return Ok(Value::Num(number));
    }
    if let Some(day) = read_day(word.as_bytes()) {
        return Ok(Value::Day(day));
    }
    match read_moment(word.as_bytes()) {
        Some(second) => Ok(Value::Moment(second)),
        None => Ok(Value::Text(Text::from_str(alloc, word)?)),
    }
}

impl Listed for Value {
    fn read(alloc: Global, text: &str) -> Result<Value, CaseFault> {
        value_of(alloc, text)
    }
}

// `count N`, `sum N` and `fraction N/D` by numbers, or a value.
impl Listed for Cell {
    fn read(alloc: Global, text: &str) -> Result<Cell, CaseFault> {
        let (kind, number) = text.split_once(' ').unwrap_or((text, ""));
        match kind {
            "count" => Ok(Cell::Count(number.parse::<u64>().or(Err(CaseFault::NoSuchCase))?)),
            "sum" => Ok(Cell::Sum(whole_of(number)?)),
            "fraction" => Ok(Cell::Frac(fraction_of(number)?)),
            _ => Ok(Cell::Value(value_of(alloc, text)?)),
        }
    }
}

/// Adds the printed form of the cell that a text writes.
pub fn add_printed(alloc: Global, text: &str, line: &mut String) -> Result<(), CaseFault> {
    let cell = Cell::read(alloc, text)?;
    let added = add_cell(alloc, &cell, line);
    // By name, since that is one call where the end of a block is one for each form.
    drop(cell);
    added
}

/// Adds the printed form of a value, `null` for null.
pub fn add_value(alloc: Global, value: &Value, line: &mut String) -> Result<(), CaseFault> {
    let cell = Cell::Value(value.copy(alloc)?);
    let added = add_cell(alloc, &cell, line);
    drop(cell);
    added
}

/// Adds the printed form of a cell, `null` for null.
pub fn add_cell(alloc: Global, cell: &Cell, line: &mut String) -> Result<(), CaseFault> {
    if let Cell::Value(Value::Null) = cell {
        return Ok(line.push_str("null")?);
    }
    add_text(print_cell(alloc, cell, &Shape::Plain), line)
}

/// Adds a text, if it was printed.
pub fn add_text(text: Result<Text, NoMemory>, line: &mut String) -> Result<(), CaseFault> {
    let text = text?;
    Ok(line.push_str(text.as_str())?)
}
