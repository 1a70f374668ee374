ghost use Rattle.std.specs.Prelude.{◌≡◌, IfOk, option_map};
ghost use Rattle.lk_cell.specs.CellValues.{cell_value, number_cell, text_cell, truth_cell};
ghost use Rattle.lk_cell.specs.Days.{day_cell};
ghost use Rattle.lk_cell.specs.Moments.{moment_cell};
ghost use Rattle.lk_val.specs.declared.value.Value.TheVariants as value;

use crate::day::read_day;
use crate::moment::read_moment;
use crate::truth::read_truth;
use lk_types::Kind;
use lk_val::{NoMemory, Num, Text, Value};
use std::alloc::Global;

/// The most bytes of a text.
const LONGEST_TEXT: usize = 4096;

/// The value that a cell of a kind reads as, if it reads; null where the cell is empty.
pub fn read_cell(alloc: Global, kind: Kind, cell: &[u8]) -> Result<Option<Value>, NoMemory>
    ensures { IfOk result (λ value. value ≡ cell_value kind cell.now) }
{
    if cell.is_empty() {
        return Ok(Some(Value::Null));
    }
    match kind {
        Kind::Text => text_cell(alloc, cell),
        Kind::Number => Ok(number_cell(cell)),
        Kind::Truth => Ok(truth_cell(cell)),
        Kind::Day => Ok(day_cell(cell)),
        Kind::Moment => Ok(moment_cell(cell)),
    }
}

fn text_cell(alloc: Global, cell: &[u8]) -> Result<Option<Value>, NoMemory>
    ensures { IfOk result (λ found. found ≡ option_map value.Text (text_cell cell.now)) }
{
    if cell.len() > LONGEST_TEXT {
        return Ok(None);
    }
    match Text::from_utf8(alloc, cell)? {
        None => Ok(None),
        Some(text) => Ok(Some(Value::Text(text))),
    }
}

fn number_cell(cell: &[u8]) -> Option<Value>
    ensures { result ≡ option_map value.Num (number_cell cell.now) }
{
    match Num::read(cell) {
        Ok(number) => Some(Value::Num(number)),
        Err(_) => None,
    }
}

fn truth_cell(cell: &[u8]) -> Option<Value>
    ensures { result ≡ option_map value.Truth (truth_cell cell.now) }
{
    Some(Value::Truth(read_truth(cell)?))
}

fn day_cell(cell: &[u8]) -> Option<Value>
    ensures { result ≡ option_map value.Day (day_cell cell.now) }
{
    Some(Value::Day(read_day(cell)?))
}

fn moment_cell(cell: &[u8]) -> Option<Value>
    ensures { result ≡ option_map value.Moment (moment_cell cell.now) }
{
    Some(Value::Moment(read_moment(cell)?))
}
