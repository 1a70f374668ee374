// What a run wrote and what a store holds, each on one line.
use crate::fault::CaseFault;
use lk_keep::{Chunk, KeptId};
use lk_val::{Text, as_text};
use std::alloc::Global;

/// The status of a run and what it wrote.
pub fn answer_of(alloc: Global, status: u8, bytes: &[u8]) -> Result<Text, CaseFault> {
    let text = as_text(bytes).ok_or(CaseFault::NoSuchCase)?;
    let text = on_one_line(alloc, text.trim_end())?;
    let text = text.as_str();
    let answer = format!(in alloc; "{status} {text}")?;
    Ok(Text::from_str(alloc, answer.as_str().trim_end())?)
}

/// A text with `\n` for a line feed and `\r` for a carriage return.
pub fn on_one_line(alloc: Global, text: &str) -> Result<Text, CaseFault> {
    let text = text.replace(alloc, "\r", "\\r")?;
    Ok(Text::from_string(text.as_str().replace(alloc, "\n", "\\n")?))
}

/// Adds the batches of a store.
pub fn add_batches(alloc: Global, chunks: &[Chunk], text: &mut String) -> Result<(), CaseFault> {
    for chunk in chunks {
        let table = chunk.table.as_str();
        let body = as_text(chunk.body.as_slice()).ok_or(CaseFault::NoSuchCase)?;
        text.push_str(format!(in alloc; "; {table}: {body}")?.as_str())?;
    }
    Ok(())
}

/// Adds the loads of a store.
pub fn add_loads(alloc: Global, ids: &[KeptId], text: &mut String) -> Result<(), CaseFault> {
    for id in ids {
        let (name, number, rows) = (id.id.as_str(), id.number, id.rows);
        let load = format!(in alloc; "; {name} made {number} by {rows} rows")?;
        text.push_str(load.as_str())?;
    }
    Ok(())
}
