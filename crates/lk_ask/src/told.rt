use lk_types::Bound;
use lk_val::{Cell, Items};

/// What a query is told: what it means, the lines of its answer, whether none was cut, and how many visible rows the lines come
/// of.
#[derive(Drop)]
pub struct Told {
    pub bound: Bound,
    pub rows: Items<Items<Cell>>,
    pub complete: bool,
    pub visited: u64,
}
