// Which texts can be a load's id.

// Whether the bytes can be a load's id: 1 to 64 letters, digits, underscores, dots and hyphens.
pub(crate) fn is_id(bytes: &[u8]) -> bool {
    !bytes.is_empty() && bytes.len() <= 64 && bytes.iter().all(|byte| is_id_byte(*byte))
}

fn is_id_byte(byte: u8) -> bool {
    byte.is_ascii_alphanumeric() || byte == b'_' || byte == b'.' || byte == b'-'
}
