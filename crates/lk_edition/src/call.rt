use lk_val::{Bytes, Text};

/// A load as a request asks for it: the caller, the table's name, whether the batch takes the place of the table's rows, the
/// load's id, and the batch in CSV.
#[derive(Drop)]
pub struct LoadCall {
    pub user: Text,
    pub table: Text,
    pub replace: bool,
    pub id: Text,
    pub body: Bytes,
}
