// Texts of the lines: their line ends are written as in the tables of cases.
use crate::fault::CaseFault;
use lk_val::{Bytes, Text, as_text};
use std::alloc::Global;

/// The bytes that a text of a line stands for: `\r` and `\n` in it are line ends.
pub fn bytes_of(alloc: Global, text: &str) -> Result<Bytes, CaseFault> {
    let text = text.replace(alloc, "\\r", "\r")?;
    let text = text.as_str().replace(alloc, "\\n", "\n")?;
    Ok(Bytes::from_slice(alloc, text.as_str().as_bytes())?)
}

/// What was sent, on one line.
pub fn on_one_line(alloc: Global, bytes: &[u8]) -> Result<Text, CaseFault> {
    let text = as_text(bytes).ok_or(CaseFault::NoSuchCase)?;
    let text = text.replace(alloc, "\r", "\\r")?;
    Ok(Text::from_string(text.as_str().replace(alloc, "\n", "\\n")?))
}
