use crate::fault::CaseFault;
use crate::given::{add_lent, add_owned};
use crate::lists::items_of;
use crate::rows::{Row, rows_of};
use crate::values::{add_cell, add_text, add_value};
use lk_agg::{Acc, AccShape, AggFault, GroupRow, Partial, partials};
use lk_val::{Items, Value, print_count};
use std::alloc::Global;

/// Adds the answer of what rows give to measures. `measure` answers the groups with their measures, `lend` the same of
/// rows that are lent, and `keep` the parts that a rollup keeps, as `EU: count 2, US: sum 30.5 of 1`; a conflict is
/// answered in place of these. `by 1` is by how many dimensions the rows are grouped.
pub fn add_gathered(
    alloc: Global,
    task: &str,
    by: &str,
    text: &str,
    line: &mut String,
) -> Result<(), CaseFault> {
    let Some((measures, rows)) = text.split_once(" | ") else {
        return Err(CaseFault::NoSuchCase);
    };
    let dims = by.strip_prefix("by ").unwrap_or("0");
    let dims = dims.parse::<u32>().or(Err(CaseFault::NoSuchCase))?;
    let rows = rows_of(alloc, rows)?;
    let ops = items_of(alloc, measures, ", ")?;
    add_taken(alloc, task, AccShape { dims, ops }, rows.as_slice(), line)
}

fn add_taken(
    alloc: Global,
    task: &str,
    shape: AccShape,
    rows: &[Row],
    line: &mut String,
) -> Result<(), CaseFault> {
    let mut acc = Acc::new(alloc, shape)?;
    match take(alloc, task, rows, &mut acc) {
        Ok(()) if task == "keep" => add_kept(alloc, acc, line),
        Ok(()) => add_measured(alloc, acc, line),
        Err(fault) => {
            // By name, since that is one call where the end of a block is one for each field.
            drop(acc);
            Err(fault)
        }
    }
}

fn take(alloc: Global, task: &str, rows: &[Row], acc: &mut Acc) -> Result<(), CaseFault> {
    if task == "lend" {
        add_lent(alloc, rows, acc)
    } else {
        add_owned(rows, acc)
    }
}

fn add_measured(alloc: Global, acc: Acc, line: &mut String) -> Result<(), CaseFault> {
    match acc.finish() {
        Ok(groups) => add_groups(alloc, groups.as_slice(), line),
        Err(fault) => {
            let added = add_fault(alloc, &fault, line);
            drop(fault);
            added
        }
    }
}

fn add_kept(alloc: Global, acc: Acc, line: &mut String) -> Result<(), CaseFault> {
    match partials(acc) {
        Ok(groups) => add_groups_of_parts(alloc, groups.as_slice(), line),
        Err(fault) => {
            let added = add_fault(alloc, &fault, line);
            drop(fault);
            added
        }
    }
}

fn add_fault(alloc: Global, fault: &AggFault, line: &mut String) -> Result<(), CaseFault> {
    match fault {
        AggFault::Conflict { measure, key } => {
            write!(line, "measure {measure} has two values for ")?;
            add_value(alloc, key, line)
        }
        AggFault::NoMemory => Err(CaseFault::NoMemory),
    }
}

fn add_groups(alloc: Global, groups: &[GroupRow], line: &mut String) -> Result<(), CaseFault> {
    for row in groups {
        add_group(alloc, row.group.as_slice(), line)?;
        for cell in row.cells.as_slice() {
            line.push_str(space_behind(line))?;
            add_cell(alloc, cell, line)?;
        }
    }
    Ok(())
}

fn add_groups_of_parts(
    alloc: Global,
    groups: &[(Items<Value>, Items<Partial>)],
    line: &mut String,
) -> Result<(), CaseFault> {
    for row in groups {
        add_group(alloc, row.0.as_slice(), line)?;
        for parts in row.1.as_slice() {
            add_parts(alloc, parts, line)?;
        }
    }
    Ok(line.push_str(if line.is_empty() { "nothing" } else { "" })?)
}

fn add_group(alloc: Global, group: &[Value], line: &mut String) -> Result<(), CaseFault> {
    line.push_str(if line.is_empty() { "" } else { "," })?;
    for value in group {
        line.push_str(space_behind(line))?;
        add_value(alloc, value, line)?;
    }
    Ok(line.push_str(if group.is_empty() { "" } else { ":" })?)
}

// The parts that are not zero or null.
fn add_parts(alloc: Global, parts: &Partial, line: &mut String) -> Result<(), CaseFault> {
    add_count("count", parts.count, line)?;
    if parts.sum != 0 || parts.values > 0 {
        add_sum(alloc, parts.sum, parts.values, line)?;
    }
    add_extreme(alloc, "least", &parts.least, line)?;
    add_extreme(alloc, "most", &parts.most, line)?;
    add_count("distinct", parts.distinct, line)
}

fn add_count(name: &str, count: u64, line: &mut String) -> Result<(), CaseFault> {
    if count == 0 {
        return Ok(());
    }
    let space = space_behind(line);
    Ok(write!(line, "{space}{name} {count}")?)
}

fn add_sum(alloc: Global, sum: i128, values: u64, line: &mut String) -> Result<(), CaseFault> {
    let space = space_behind(line);
    write!(line, "{space}sum ")?;
    add_text(print_count(alloc, sum), line)?;
    Ok(write!(line, " of {values}")?)
}

fn add_extreme(
    alloc: Global,
    name: &str,
    value: &Value,
    line: &mut String,
) -> Result<(), CaseFault> {
    if let Value::Null = value {
        return Ok(());
    }
    let space = space_behind(line);
    write!(line, "{space}{name} ")?;
    add_value(alloc, value, line)
}

// What parts the next word from those of the line.
fn space_behind(line: &String) -> &'static str {
    if line.is_empty() { "" } else { " " }
}
