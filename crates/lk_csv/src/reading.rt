ghost use Rattle.std.specs.Prelude.{◌≡◌, ◌<◌, IfOk, true};
ghost use Rattle.csv.specs.Records.{fields_of};
ghost use Rattle.lk_csv.specs.Records.{records_of};
ghost use Rattle.lk_csv.specs.Reading.{IsReading, before, bytes_left, records_left};

use csv::{ByteRecord, ErrorKind, Reader, ReaderBuilder};
use lk_val::{Bytes, Items, NoMemory};
use std::alloc::Global;

/// The records of a text: those that `csv` reads with its defaults and no header row. They may
/// differ in length, and a byte order mark before the first is skipped. (RFC 4180, section 2)
pub fn read_records(alloc: Global, text: &[u8]) -> Result<Items<Items<Bytes>>, NoMemory>
    ensures { IfOk result (λ rows. rows ≡ records_of text.now) }
{
    let mut reader = reader_over(alloc, text);
    let mut row = ByteRecord::new(alloc);
    rest_of(alloc, &mut reader, &mut row)
}

// The records that the reader has yet to give, each of which is taken into `row` first.
fn rest_of(
    alloc: Global,
    reader: &mut Reader<&[u8]>,
    row: &mut ByteRecord,
) -> Result<Items<Items<Bytes>>, NoMemory>
    requires { IsReading reader.old }
    ensures { IfOk result (λ rows. rows ≡ records_left reader.old) }
{
    let mut rows = Items::new(alloc);
    while take_record(reader, row)? {
        rows.push(copy_fields(alloc, row)?)?;
    }
    Ok(rows)
}

/// A reader of the records of a text, which `take_record` takes one by one.
pub fn reader_over(alloc: Global, text: &[u8]) -> Reader<&[u8]>
    ensures reading { IsReading result }
    ensures records { records_left result ≡ records_of text.now }
{
    ReaderBuilder::new()
        .has_headers(false)
        .flexible(true)
        .from_reader(alloc, text)
}

/// Takes the next record of the reader into `row`, or says that none is left.
pub fn take_record(reader: &mut Reader<&[u8]>, row: &mut ByteRecord) -> Result<bool, NoMemory>
    requires { IsReading reader.old }
    ensures reading { IfOk result (λ found. found ≡ true → IsReading reader.new) }
    ensures value { IfOk result (λ found.
        records_left reader.old ≡ before found (fields_of row.new) (records_left reader.new)) }
    ensures shorter { IfOk result (λ found. found ≡ true
        → bytes_left reader.new < bytes_left reader.old) }
{
    match reader.read_byte_record(row) {
        Ok(found) => Ok(found),
        Err(error) => match error.kind() {
            // A slice is read without fault, though no clause of its `Read` says so.
            ErrorKind::OutOfMemory | ErrorKind::Io(_) => Err(NoMemory),
            _ => unreachable!(),
        },
    }
}

// The fields of the row, each in memory of its own.
fn copy_fields(alloc: Global, row: &ByteRecord) -> Result<Items<Bytes>, NoMemory>
    ensures { IfOk result (λ fields. fields ≡ fields_of row.now) }
{
    let mut fields = Vec::with_capacity(alloc, row.len())?;
    for field in row.iter() {
        fields.push(Bytes::from_slice(alloc, field)?)?;
    }
    Ok(Items::from_vec(fields))
}
