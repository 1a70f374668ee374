ghost use Rattle.std.specs.Prelude.{◌≡◌, ◌<◌, ◌==◌, [], IfOk, IfErr, Ok, Err, length, map};
ghost use Rattle.std.specs.List.{All, position};
ghost use Rattle.csv.specs.Records.{fields_of};
ghost use Rattle.lk_val.specs.Memory.{Unless};
ghost use Rattle.lk_table.specs.Batches.{carried, column_at, or_wrong, place_named, places_of, unless_among};
ghost use Rattle.lk_table.specs.Faults.{is_no_memory};

use crate::fault::BatchFault;
use crate::records::fields_in;
use csv::ByteRecord;
use lk_types::ColumnDef;
use lk_val::{NoMemory, Text};
use std::alloc::Global;

/// The numbers of the columns that a header's fields name; or the first name that is no column's or stands twice.
pub(crate) fn places_in(
    alloc: Global,
    columns: &[ColumnDef],
    header: &ByteRecord,
) -> Result<Vec<usize>, BatchFault>
    ensures ok { IfOk result (λ places. places_of columns.now [] (fields_of header.now) ≡ Ok places.items) }
    ensures fault { IfErr result (λ fault. Unless (is_no_memory fault)
        (or_wrong 0 (places_of columns.now [] (fields_of header.now)) ≡ Err fault)) }
{
    let names = fields_in(alloc, header)?;
    read_places(alloc, columns, &names)
}

fn read_places(
    alloc: Global,
    columns: &[ColumnDef],
    names: &[&[u8]],
) -> Result<Vec<usize>, BatchFault>
    ensures ok { IfOk result (λ places.
        places_of columns.now [] (map (λ name. name.now) names.now) ≡ Ok places.items) }
    ensures fault { IfErr result (λ fault. Unless (is_no_memory fault)
        (or_wrong 0 (places_of columns.now [] (map (λ name. name.now) names.now)) ≡ Err fault)) }
{
    let mut places = Vec::new(alloc);
    for name in names {
        match unless_among(&places, place_named(columns, name)) {
            Some(place) => places.push(place)?,
            None => {
                return Err(BatchFault::L3 {
                    row: 0,
                    column: carried(alloc, name)?,
                });
            }
        }
    }
    Ok(places)
}

/// The columns at these places, where they lie.
pub(crate) fn columns_at<'a>(
    alloc: Global,
    columns: &'a [ColumnDef],
    places: &[usize],
) -> Result<Vec<&'a ColumnDef>, NoMemory>
    requires { All (λ place. place < length columns.now) places.now }
    ensures { IfOk result (λ named.
        map (λ column. column.now) named.items ≡ map (column_at columns.now) places.now) }
{
    let mut named = Vec::with_capacity(alloc, places.len())?;
    for place in places {
        named.push(&columns[*place])?;
    }
    Ok(named)
}

/// The place in a record of a column of the table, if the header names it.
pub(crate) fn source_of(places: &[usize], column: usize) -> Option<usize>
    ensures { result ≡ position (λ place. place == column) places.now }
{
    places.iter().position(|place| *place == column)
}

fn place_named(columns: &[ColumnDef], name: &[u8]) -> Option<usize>
    ensures { result ≡ place_named columns.now name.now }
{
    columns
        .iter()
        .position(|column| column.name.as_bytes() == name)
}

// A place, unless it stands among some.
fn unless_among(places: &[usize], place: Option<usize>) -> Option<usize>
    ensures { result ≡ unless_among places.now place }
{
    match place {
        Some(place) => {
            if places.contains(&place) {
                None
            } else {
                Some(place)
            }
        }
        None => None,
    }
}

// A name as a fault carries it: bytes that are not text are carried as the empty name.
fn carried(alloc: Global, name: &[u8]) -> Result<Text, NoMemory>
    ensures { IfOk result (λ text. text ≡ carried name.now) }
{
    match Text::from_utf8(alloc, name)? {
        Some(text) => Ok(text),
        None => Ok(Text::new(alloc)),
    }
}
