ghost use Rattle.std.specs.Prelude.{◌≡◌, IfOk};
ghost use Rattle.lk_val.specs.Texts.{is_same_text};
ghost use Rattle.lk_val.specs.Memory.{IsUnlessMemory, is_no_memory};
ghost use Rattle.lk_schema.specs.Rows.{row_line, rows_from, rows_of};

use lk_val::{Bytes, FaultLine, Items, ModelFault, NoMemory, Text};
use std::alloc::Global;

/// A table's text: its header, and the row that a record behind it is.
pub trait TableText {
    ghost use Rattle.std.specs.Prelude.{Bool, List, Option, ℕ};

    type Row;

    ghost is_header: { List (List ℕ) → Bool };

    ghost row_of: { List (List ℕ) → Option Self.Row };

    fn is_header(&self, fields: &[Bytes]) -> bool
        ensures { result ≡ is_header fields.now };

    fn row_of(&self, alloc: Global, fields: &[Bytes]) -> Result<Option<Self::Row>, NoMemory>
        ensures { IfOk result (λ row. row ≡ row_of fields.now) };
}

/// The rows of a table's records behind their header, or the fault of the first record of another shape.
pub fn read_rows<R: TableText>(
    alloc: Global,
    code: &str,
    path: &str,
    text: &R,
    records: &[Items<Bytes>],
) -> Result<Items<R::Row>, ModelFault>
where
    R::Row: Drop,
    ensures { IsUnlessMemory is_no_memory result
        (rows_of code.now path.now R.is_header R.row_of records.now) }
{
    match records {
        [header, records @ ..] => {
            if text.is_header(header.as_slice()) {
                read_each(alloc, code, path, text, records)
            } else {
                Err(ModelFault::Fault(row_line(alloc, code, path, 0, "", "")?))
            }
        }
        [] => Err(ModelFault::Fault(row_line(alloc, code, path, 0, "", "")?)),
    }
}

fn read_each<R: TableText>(
    alloc: Global,
    code: &str,
    path: &str,
    text: &R,
    records: &[Items<Bytes>],
) -> Result<Items<R::Row>, ModelFault>
where
    R::Row: Drop,
    ensures { IsUnlessMemory is_no_memory result
        (rows_from code.now path.now R.is_header R.row_of 1 records.now) }
{
    let mut rows = Items::new(alloc);
    for (place, fields) in records.iter().enumerate() {
        let Some(row) = text.row_of(alloc, fields.as_slice())? else {
            let line = row_line(alloc, code, path, place + 1, "", "")?;
            return Err(ModelFault::Fault(line));
        };
        rows.push(row)?;
    }
    Ok(rows)
}

/// The line of a fault of a row, with two names in it. Rows count from 1; one past 32 bits is want of memory.
pub fn row_line(
    alloc: Global,
    code: &str,
    path: &str,
    row: usize,
    name: &str,
    other: &str,
) -> Result<FaultLine, NoMemory>
    ensures { IfOk result (λ line. line ≡ row_line code.now path.now row name.now other.now) }
{
    Ok(FaultLine {
        code: Text::from_str(alloc, code)?,
        path: Text::from_str(alloc, path)?,
        place: small_number(row)?,
        name: Text::from_str(alloc, name)?,
        other: Text::from_str(alloc, other)?,
    })
}

/// A number in 32 bits. No list in memory is longer, so a larger one is want of memory.
pub fn small_number(number: usize) -> Result<u32, NoMemory>
    ensures { IfOk result (λ small. small ≡ number) }
{
    match u32::try_from(number) {
        Ok(small) => Ok(small),
        Err(_) => Err(NoMemory),
    }
}

/// Whether two texts have the same bytes.
pub fn is_same_text(a: &[u8], b: &[u8]) -> bool
    ensures { result ≡ is_same_text a.now b.now }
{
    a == b
}
