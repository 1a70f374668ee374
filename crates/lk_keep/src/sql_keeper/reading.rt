// What the tables of a store hold. Rows that no save writes are refused.
ghost use Rattle.std.specs.Prelude.{◌≡◌, Ok, Err, IfOk, if◌then◌else◌, length};
ghost use Rattle.lk_ledger.specs.Saved.{IsSaved, are_saves};

use crate::sql_keeper::id::is_id;
use crate::sql_keeper::refusal::Refusal;
use lk_ledger::{Chunk, Kept, KeptId, are_saves};
use lk_val::{Bytes, Items, Text};
use sqlite::{Alter, Connection, Row};
use std::alloc::Global;

// The version of these tables.
const VERSION: i64 = 1;

const TABLES: &str = "\
CREATE TABLE state (one INTEGER PRIMARY KEY, version INTEGER NOT NULL, number INTEGER NOT NULL) STRICT;\
CREATE TABLE chunks (number INTEGER PRIMARY KEY, target TEXT NOT NULL, body BLOB NOT NULL) STRICT;\
CREATE TABLE ids (id TEXT PRIMARY KEY, number INTEGER NOT NULL, rows INTEGER NOT NULL) STRICT;\
INSERT INTO state (one, version, number) VALUES (1, 1, 0)";

// The batches of a store, and the number of each.
#[derive(Drop)]
struct Batches {
    numbers: Items<u64>,
    chunks: Items<Chunk>,
}

impl Batches {
    fn none(alloc: Global) -> Batches
        ensures { length result.numbers ≡ length result.chunks }
    {
        Batches {
            numbers: Items::new(alloc),
            chunks: Items::new(alloc),
        }
    }

    // Adds that of a row.
    fn add(&mut self, row: &Row) -> Result<(), Refusal>
        ensures { IfOk result (λ _. length self.old.numbers ≡ length self.old.chunks
            → length self.new.numbers ≡ length self.new.chunks) }
    {
        self.numbers.push(row.get(0)?)?;
        self.chunks.push(chunk_of(row)?)?;
        Ok(())
    }
}

// All that the store holds; an empty store is given its tables first.
pub(crate) fn read_store<S: Alter>(
    alloc: Global,
    connection: &mut Connection<S>,
) -> Result<Kept, Refusal>
    ensures saved { IfOk result IsSaved }
{
    if is_new(connection)? {
        make_tables(connection)?;
    }
    let number = read_number(connection)?;
    let batches = read_batches(alloc, connection)?;
    let ids = read_ids(alloc, connection)?;
    kept_of(number, batches, ids)
}

// What is handed over, unless saves cannot have left it.
fn kept_of(number: u64, batches: Batches, ids: Items<KeptId>) -> Result<Kept, Refusal>
    requires { length batches.numbers ≡ length batches.chunks }
    ensures value { result ≡ (if are_saves number ids batches.numbers
        then Ok (record { number = number; chunks = batches.chunks; ids = ids }) else Err Refusal.Failed) }
    ensures saved { IfOk result IsSaved }
{
    if !are_saves(number, ids.as_slice(), batches.numbers.as_slice()) {
        return Err(Refusal::Failed);
    }
    Ok(Kept {
        number,
        chunks: batches.chunks,
        ids,
    })
}

// Whether the store has no table.
fn is_new<S: Alter>(connection: &mut Connection<S>) -> Result<bool, Refusal> {
    let row = connection.query_row("SELECT count(*) FROM sqlite_schema", &[])?;
    let objects: i64 = row.get(0)?;
    Ok(objects == 0)
}

// Makes the tables, with the number 0, all or none.
fn make_tables<S: Alter>(connection: &mut Connection<S>) -> Result<(), Refusal> {
    if !connection.is_autocommit() {
        return Err(Refusal::Failed);
    }
    let mut transaction = connection.transaction();
    transaction.execute_batch(TABLES)?;
    Ok(transaction.commit()?)
}

fn read_number<S: Alter>(connection: &mut Connection<S>) -> Result<u64, Refusal> {
    let rows = connection.query_all("SELECT one, version, number FROM state", &[])?;
    number_of(rows.as_slice())
}

// The number in the one row of `state`.
fn number_of(rows: &[Row]) -> Result<u64, Refusal> {
    let [row] = rows else {
        return Err(Refusal::Failed);
    };
    let one: i64 = row.get(0)?;
    let version: i64 = row.get(1)?;
    if one != 1 || version != VERSION {
        return Err(Refusal::Failed);
    }
    Ok(row.get(2)?)
}

// The rows are read one at a time, so that one body at a time is in memory twice, beside the pages that are kept.
fn read_batches<S: Alter>(alloc: Global, connection: &mut Connection<S>) -> Result<Batches, Refusal>
    ensures { IfOk result (λ batches. length batches.numbers ≡ length batches.chunks) }
{
    let mut batches = Batches::none(alloc);
    let mut rows = connection.query(
        "SELECT number, target, body FROM chunks ORDER BY number",
        &[],
    )?;
    'rows: for _ in 0..u64::MAX {
        let Some(row) = rows.next()? else {
            return Ok(batches);
        };
        batches.add(row)?;
    }
    Err(Refusal::Failed)
}

fn chunk_of(row: &Row) -> Result<Chunk, Refusal> {
    let table: String = row.get(1)?;
    let body: Vec<u8> = row.get(2)?;
    Ok(Chunk {
        table: Text::from_string(table),
        body: Bytes::from_vec(body),
    })
}

fn read_ids<S: Alter>(
    alloc: Global,
    connection: &mut Connection<S>,
) -> Result<Items<KeptId>, Refusal> {
    let rows = connection.query_all("SELECT id, number, rows FROM ids ORDER BY number", &[])?;
    let mut ids = Items::new(alloc);
    for row in rows.as_slice() {
        ids.push(id_of(row)?)?;
    }
    Ok(ids)
}

fn id_of(row: &Row) -> Result<KeptId, Refusal> {
    let id: String = row.get(0)?;
    if !is_id(id.as_bytes()) {
        return Err(Refusal::Failed);
    }
    Ok(KeptId {
        id: Text::from_string(id),
        number: row.get(1)?,
        rows: row.get(2)?,
    })
}
