/// What is told when the work on a query of a connection begins and ends. A test's gate may hold it. (lookd)
pub trait Gate: Sync {
    /// The work on a query over the snapshot with this number begins.
    fn begin(&self, number: u64);

    /// The work on the query that the same thread began last has ended.
    fn end(&self);
}

/// The gate of the program, which holds no query.
#[derive(Clone, Copy)]
pub struct Open;

impl Gate for Open {
    fn begin(&self, _number: u64) {}

    fn end(&self) {}
}
