//! Records of comma-separated fields: read from a text, and written as a line. (RFC 4180)
#![tactic(auto)]

mod laws;
mod reading;
mod writing;

pub use laws::written_records_read_back;
pub use reading::{read_records, reader_over, take_record};
pub use writing::write_record;
