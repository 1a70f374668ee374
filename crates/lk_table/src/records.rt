ghost use Rattle.std.specs.Prelude.{◌≡◌, ◌<◌, IfOk, Some, length, map};
ghost use Rattle.csv.specs.Records.{field_at, fields_of};

use csv::ByteRecord;
use lk_val::NoMemory;
use std::alloc::Global;

/// The fields of a record, where they lie.
pub(crate) fn fields_in(alloc: Global, csv_record: &ByteRecord) -> Result<Vec<&[u8]>, NoMemory>
    ensures { IfOk result (λ fields. map (λ field. field.now) fields.items ≡ fields_of csv_record.now) }
{
    let mut fields = Vec::with_capacity(alloc, csv_record.len())?;
    for field in csv_record.iter() {
        fields.push(field)?;
    }
    Ok(fields)
}

/// A field of a record, where it lies.
pub(crate) fn field_at(csv_record: &ByteRecord, i: usize) -> &[u8]
    requires { i < length (fields_of csv_record.now) }
    ensures { field_at (fields_of csv_record.now) i ≡ Some result.now }
{
    match csv_record.get(i) {
        Some(field) => field,
        // A record has a field at each place below its length.
        None => unreachable!(),
    }
}
