ghost use Rattle.std.specs.Prelude.{◌≡◌, ◌≢◌, [], IfOk, IfErr, Ok, Err, map, option_map};
ghost use Rattle.csv.specs.Records.{fields_of};
ghost use Rattle.lk_val.specs.Memory.{Unless};
ghost use Rattle.lk_val.specs.ValueRefs.{value_of_ref};
ghost use Rattle.lk_val.specs.declared.value.Value.TheVariants as value;
ghost use Rattle.lk_types.specs.declared.schema.Kind.TheVariants as kind;
ghost use Rattle.lk_cell.specs.CellValues.{cell_value, number_cell, text_cell, truth_cell};
ghost use Rattle.lk_cell.specs.Days.{day_cell};
ghost use Rattle.lk_cell.specs.Moments.{moment_cell};
ghost use Rattle.lk_table.specs.Batches.{or_wrong, record_values};
ghost use Rattle.lk_table.specs.Faults.{is_no_memory};

use crate::fault::BatchFault;
use crate::records::field_at;
use csv::ByteRecord;
use lk_cell::{read_cell, read_day, read_moment};
use lk_types::{ColumnDef, Kind};
use lk_val::{NoMemory, Num, Text, Value, ValueRef, as_text};
use std::alloc::Global;

/// The most bytes of a text.
const LONGEST_TEXT: usize = 4096;

/// The values of a record's fields, where they lie, by the columns that the header names; or the fault of the row of
/// this number.
pub(crate) fn read_values<'a>(
    alloc: Global,
    row: u32,
    named: &[&ColumnDef],
    csv_record: &'a ByteRecord,
) -> Result<Vec<ValueRef<'a>>, BatchFault>
    ensures ok { IfOk result (λ values. or_wrong row (record_values
        (map (λ column. column.now) named.now) (fields_of csv_record.now))
        ≡ Ok (map value_of_ref values.items)) }
    ensures fault { IfErr result (λ fault. Unless (is_no_memory fault) (or_wrong row (record_values
        (map (λ column. column.now) named.now) (fields_of csv_record.now))
        ≡ Err fault)) }
{
    if csv_record.len() != named.len() {
        return Err(BatchFault::L3 {
            row,
            column: Text::new(alloc),
        });
    }
    let mut values = Vec::with_capacity(alloc, named.len())?;
    for (i, column) in named.iter().enumerate() {
        match read_ref(alloc, column.kind, field_at(csv_record, i))? {
            Some(value) => values.push(value)?,
            None => {
                return Err(BatchFault::L3 {
                    row,
                    column: column.name.copy(alloc)?,
                });
            }
        }
    }
    Ok(values)
}

// The value that a field of a kind reads as, where it lies, if it reads; null where the field is empty.
fn read_ref<'a>(
    alloc: Global,
    kind: Kind,
    field: &'a [u8],
) -> Result<Option<ValueRef<'a>>, NoMemory>
    ensures { IfOk result (λ value. option_map value_of_ref value ≡ cell_value kind field.now) }
{
    if field.is_empty() {
        return Ok(Some(ValueRef::Null));
    }
    match kind {
        Kind::Text => Ok(text_ref(field)),
        Kind::Number => Ok(number_ref(field)),
        Kind::Truth => truth_ref(alloc, field),
        Kind::Day => Ok(day_ref(field)),
        Kind::Moment => Ok(moment_ref(field)),
    }
}

fn text_ref(field: &[u8]) -> Option<ValueRef<'_>>
    ensures { option_map value_of_ref result ≡ option_map value.Text (text_cell field.now) }
{
    if field.len() > LONGEST_TEXT {
        return None;
    }
    match as_text(field) {
        Some(text) => Some(ValueRef::Text(text)),
        None => None,
    }
}

fn number_ref(field: &[u8]) -> Option<ValueRef<'static>>
    ensures { option_map value_of_ref result ≡ option_map value.Num (number_cell field.now) }
{
    match Num::read(field) {
        Ok(number) => Some(ValueRef::Num(number)),
        Err(_) => None,
    }
}

fn truth_ref(alloc: Global, field: &[u8]) -> Result<Option<ValueRef<'static>>, NoMemory>
    requires { field.now ≢ [] }
    ensures { IfOk result (λ truth. option_map value_of_ref truth ≡ option_map value.Truth (truth_cell field.now)) }
{
    match read_cell(alloc, Kind::Truth, field)? {
        Some(Value::Truth(truth)) => Ok(Some(ValueRef::Truth(truth))),
        _ => Ok(None),
    }
}

fn day_ref(field: &[u8]) -> Option<ValueRef<'static>>
    ensures { option_map value_of_ref result ≡ option_map value.Day (day_cell field.now) }
{
    Some(ValueRef::Day(read_day(field)?))
}

fn moment_ref(field: &[u8]) -> Option<ValueRef<'static>>
    ensures { option_map value_of_ref result ≡ option_map value.Moment (moment_cell field.now) }
{
    Some(ValueRef::Moment(read_moment(field)?))
}
