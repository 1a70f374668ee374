use crate::fault::CaseFault;
use lk_utf8::{Utf8, is_whole, utf8_after};

/// Adds what is owed behind the bytes, or the place of the first that may not stand.
pub fn add_owed(bytes: &[u8], line: &mut String) -> Result<(), CaseFault> {
    let mut utf8 = Utf8::Whole;
    for (place, byte) in bytes.iter().enumerate() {
        match utf8_after(utf8, *byte) {
            Some(owed) => utf8 = owed,
            None => return Ok(write!(line, "stops at {place}")?),
        }
    }
    if is_whole(utf8) {
        Ok(line.push_str("whole")?)
    } else {
        Ok(write!(line, "owes {utf8:?}")?)
    }
}
