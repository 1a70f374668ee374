// Saves into the tables of a store, each of them one transaction, which is undone where it is dropped.
use crate::sql_keeper::id::is_id;
use crate::sql_keeper::refusal::Refusal;
use lk_ledger::Command;
use sqlite::{Alter, Connection, Transaction, params};

pub(crate) fn write_load<S: Alter>(
    connection: &mut Connection<S>,
    command: &Command,
) -> Result<(), Refusal> {
    if !connection.is_autocommit() {
        return Err(Refusal::Failed);
    }
    let mut transaction = connection.transaction();
    write_chunk(&mut transaction, command)?;
    write_id(&mut transaction, command)?;
    write_number(&mut transaction, command.number)?;
    Ok(transaction.commit()?)
}

pub(crate) fn write_check<S: Alter>(
    connection: &mut Connection<S>,
    number: u64,
) -> Result<(), Refusal> {
    if !connection.is_autocommit() {
        return Err(Refusal::Failed);
    }
    let mut transaction = connection.transaction();
    write_number(&mut transaction, number)?;
    Ok(transaction.commit()?)
}

fn write_chunk<S: Alter>(
    transaction: &mut Transaction<'_, S>,
    command: &Command,
) -> Result<(), Refusal> {
    let number = as_integer(command.number)?;
    let table = command.table.as_str();
    if command.replace {
        transaction.execute("DELETE FROM chunks WHERE target = ?1", params![table])?;
    }
    transaction.execute(
        "INSERT INTO chunks (number, target, body) VALUES (?1, ?2, ?3)",
        params![number, table, command.body.as_slice()],
    )?;
    Ok(())
}

fn write_id<S: Alter>(
    transaction: &mut Transaction<'_, S>,
    command: &Command,
) -> Result<(), Refusal> {
    // A store with another id could not be read again.
    if !is_id(command.id.as_bytes()) {
        return Err(Refusal::Failed);
    }
    let number = as_integer(command.number)?;
    let rows = as_integer(command.rows)?;
    transaction.execute(
        "INSERT INTO ids (id, number, rows) VALUES (?1, ?2, ?3)",
        params![command.id.as_str(), number, rows],
    )?;
    Ok(())
}

// Sets the number, which rises with each save. Where the store holds a save that was reported as failed, a save of the
// same number is refused, so that nothing is built on rows that no reader has seen.
fn write_number<S: Alter>(
    transaction: &mut Transaction<'_, S>,
    number: u64,
) -> Result<(), Refusal> {
    let number = as_integer(number)?;
    let changed = transaction.execute(
        "UPDATE state SET number = ?1 WHERE one = 1 AND number < ?1",
        params![number],
    )?;
    if changed != 1 {
        return Err(Refusal::Failed);
    }
    Ok(())
}

// A number as the store has it.
fn as_integer(number: u64) -> Result<i64, Refusal> {
    i64::try_from(number).map_err(|_| Refusal::Failed)
}
