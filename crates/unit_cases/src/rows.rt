use crate::fault::CaseFault;
use crate::lists::{Listed, items_of};
use crate::values::value_of;
use lk_types::KeyValue;
use lk_val::{Items, Value};
use std::alloc::Global;

/// A row: its group, and what it gives to each measure.
#[derive(Drop)]
pub struct Row {
    pub group: Items<Value>,
    pub cells: Items<KeyValue>,
}

/// What rows give to the measures, as `EU: 10 100; 1 60, US: 12 30.5; null null`: before the colon the group, and
/// behind it a key and a value for each measure; or `no rows`.
pub fn rows_of(alloc: Global, text: &str) -> Result<Items<Row>, CaseFault> {
    items_of(alloc, if text == "no rows" { "" } else { text }, ", ")
}

impl Listed for Row {
    fn read(alloc: Global, text: &str) -> Result<Row, CaseFault> {
        let (group, cells) = text.split_once(": ").unwrap_or(("", text));
        let group = items_of(alloc, group, " ")?;
        let cells = items_of(alloc, cells, "; ")?;
        Ok(Row { group, cells })
    }
}

// A key and a value, and `filtered` where the row doesn't pass the measure's filters. The key `place` is the row's.
impl Listed for KeyValue {
    fn read(alloc: Global, text: &str) -> Result<KeyValue, CaseFault> {
        let (given, counts) = match text.strip_suffix(" filtered") {
            Some(given) => (given, false),
            None => (text, true),
        };
        let Some((key, value)) = given.split_once(" ") else {
            return Err(CaseFault::NoSuchCase);
        };
        let value = value_of(alloc, value)?;
        if key == "place" {
            return Ok(KeyValue {
                key: None,
                value,
                counts,
            });
        }
        let key = Some(value_of(alloc, key)?);
        Ok(KeyValue { key, value, counts })
    }
}
