ghost use Rattle.std.specs.Prelude.{◌<◌, ◌^◌, ◌≤ℤ◌, ◌<ℤ◌, IfOk, neg_ℤ, pos};
ghost use Rattle.unit_cases.specs.Small.{IsSmall};

use crate::fault::CaseFault;
use crate::lists::Listed;
use crate::values::{add_cell, value_of};
use lk_agg::{Partial, cell_of_partial, merge_partials};
use lk_types::Op;
use lk_val::{Num, Value};
use std::alloc::Global;

/// Adds the cell of a measure from two parts that are put together, as `average | sum 150 of 2 | sum 40.5 of 2`.
pub fn add_merged(alloc: Global, text: &str, line: &mut String) -> Result<(), CaseFault> {
    let Some((measure, parts)) = text.split_once(" | ") else {
        return Err(CaseFault::NoSuchCase);
    };
    let op = Op::read(alloc, measure)?;
    let Some((into, from)) = parts.split_once(" | ") else {
        return Err(CaseFault::NoSuchCase);
    };
    let cell = cell_of_partial(op, merged(alloc, into, from)?);
    let added = add_cell(alloc, &cell, line);
    // By name, since that is one call where the end of a block is one for each form.
    drop(cell);
    added
}

fn merged(alloc: Global, into: &str, from: &str) -> Result<Partial, CaseFault> {
    let mut into = part_of(alloc, into)?;
    match part_of(alloc, from) {
        Ok(from) => {
            merge_partials(&mut into, from);
            Ok(into)
        }
        Err(fault) => {
            drop(into);
            Err(fault)
        }
    }
}

// The parts that a text names: `count 2`, `sum 150 of 2`, `least EU`, `most EU` or `distinct 3`.
fn part_of(alloc: Global, text: &str) -> Result<Partial, CaseFault>
    ensures { IfOk result IsSmall }
{
    let Some((name, part)) = text.split_once(" ") else {
        return Err(CaseFault::NoSuchCase);
    };
    match name {
        "count" => Ok(counted(number_of(part)?, 0)),
        "sum" => sum_of(part),
        "distinct" => Ok(counted(0, number_of(part)?)),
        name => extreme_of(alloc, name, part),
    }
}

fn sum_of(text: &str) -> Result<Partial, CaseFault>
    ensures { IfOk result IsSmall }
{
    let Some((sum, values)) = text.split_once(" of ") else {
        return Err(CaseFault::NoSuchCase);
    };
    let sum = Num::read(sum.as_bytes()).or(Err(CaseFault::NoSuchCase))?;
    let values = number_of(values)?;
    Ok(Partial {
        count: 0,
        sum: i128::from(sum.0),
        values,
        least: Value::Null,
        most: Value::Null,
        distinct: 0,
    })
}

fn extreme_of(alloc: Global, name: &str, text: &str) -> Result<Partial, CaseFault>
    ensures { IfOk result IsSmall }
{
    let value = value_of(alloc, text)?;
    match name {
        "least" => Ok(bounded(value, Value::Null)),
        "most" => Ok(bounded(Value::Null, value)),
        _ => Err(CaseFault::NoSuchCase),
    }
}

fn counted(count: u64, distinct: u64) -> Partial
    requires { count < 2 ^ 32 }
    ensures { IsSmall result }
{
    Partial {
        count,
        sum: 0,
        values: 0,
        least: Value::Null,
        most: Value::Null,
        distinct,
    }
}

fn bounded(least: Value, most: Value) -> Partial
    ensures { IsSmall result }
{
    Partial {
        count: 0,
        sum: 0,
        values: 0,
        least,
        most,
        distinct: 0,
    }
}

fn number_of(text: &str) -> Result<u64, CaseFault>
    ensures { IfOk result (λ number. number < 2 ^ 32) }
{
    let number = text.parse::<u32>().or(Err(CaseFault::NoSuchCase))?;
    Ok(u64::from(number))
}
