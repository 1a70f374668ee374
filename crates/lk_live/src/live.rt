use lk_edition::Edition;
use lk_shelf::View;
use std::collections::LinkedList;

/// What contracts see of a connection to live readers between two replies. No value of it is made.
pub struct Live {
    /// What its desk has seen shown, and how much that was at each look.
    pub desk: View<Edition>,
    /// How many loads and checks could not be saved.
    pub failed: u64,
    /// The moments to come, as far as the clock tells, in seconds from 1970-01-01 00:00:00 UTC.
    pub moments: Option<LinkedList<i64>>,
}
