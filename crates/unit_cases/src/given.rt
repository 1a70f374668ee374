use crate::fault::CaseFault;
use crate::rows::Row;
use lk_agg::{Acc, KeyRef};
use lk_types::KeyValue;
use lk_val::{Value, ValueRef};
use std::alloc::Global;

/// Adds the rows to the accumulator.
pub fn add_owned(rows: &[Row], acc: &mut Acc) -> Result<(), CaseFault> {
    for (place, row) in rows.iter().enumerate() {
        acc.add(row.group.as_slice(), row.cells.as_slice(), place as u64)?;
    }
    Ok(())
}

/// Adds the rows to the accumulator, to which their values are lent.
pub fn add_lent(alloc: Global, rows: &[Row], acc: &mut Acc) -> Result<(), CaseFault> {
    for (place, row) in rows.iter().enumerate() {
        lend_row(alloc, row, place as u64, acc)?;
    }
    Ok(())
}

fn lend_row(alloc: Global, row: &Row, place: u64, acc: &mut Acc) -> Result<(), CaseFault> {
    let group = lent_group(alloc, row.group.as_slice())?;
    let cells = lent_cells(alloc, row.cells.as_slice())?;
    Ok(acc.add_refs(group.as_slice(), cells.as_slice(), place)?)
}

fn lent_group(alloc: Global, values: &[Value]) -> Result<Vec<ValueRef<'_>>, CaseFault> {
    let mut group = Vec::new(alloc);
    for value in values {
        group.push(value.as_ref())?;
    }
    Ok(group)
}

fn lent_cells(alloc: Global, given: &[KeyValue]) -> Result<Vec<KeyRef<'_>>, CaseFault> {
    let mut cells = Vec::new(alloc);
    for given in given {
        cells.push(lend(given))?;
    }
    Ok(cells)
}

fn lend(given: &KeyValue) -> KeyRef<'_> {
    KeyRef {
        key: match &given.key {
            Some(key) => Some(key.as_ref()),
            None => None,
        },
        value: given.value.as_ref(),
        counts: given.counts,
    }
}
