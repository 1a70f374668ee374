ghost use Rattle.std.specs.Prelude.{◌≡◌, IfOk, map};
ghost use Rattle.lk_csv.specs.Records.{record_text};

use csv::WriterBuilder;
use lk_val::{Bytes, NoMemory, Text};
use std::alloc::Global;

/// The text of one record, with its line feed, as `csv` writes it with its defaults: a field stands
/// in quotes where it needs them. (RFC 4180, section 2)
pub fn write_record(alloc: Global, fields: &[Text]) -> Result<Bytes, NoMemory>
    ensures { IfOk result (λ text. text ≡ record_text fields.now) }
{
    let slices = byte_slices(alloc, fields)?;
    match write_fields(alloc, slices.as_slice()) {
        Ok(text) => Ok(text),
        // A vector takes whatever memory allows, and a lone record has no length to keep to.
        Err(_) => Err(NoMemory),
    }
}

// The bytes of each text, where they lie.
fn byte_slices<'a>(alloc: Global, texts: &'a [Text]) -> Result<Vec<&'a [u8]>, NoMemory>
    ensures { IfOk result (λ slices. map (λ slice. slice.now) slices.items ≡ texts.now) }
{
    let mut slices = Vec::with_capacity(alloc, texts.len())?;
    for text in texts {
        slices.push(text.as_bytes())?;
    }
    Ok(slices)
}

// The text of a record of bytes, with the error of `csv`.
fn write_fields(alloc: Global, fields: &[&[u8]]) -> Result<Bytes, csv::Error>
    ensures { IfOk result (λ text. text ≡ record_text (map (λ field. field.now) fields.now)) }
{
    let mut writer = WriterBuilder::new().from_writer(Vec::new(alloc));
    writer.write_fields(fields)?;
    match writer.into_inner() {
        Ok(text) => Ok(Bytes::from_vec(text)),
        Err(error) => Err(error.into_error()),
    }
}
