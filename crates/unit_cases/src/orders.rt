use crate::fault::CaseFault;
use crate::lists::{Listed, items_of};
use lk_val::{Bytes, Cell, Frac, Value, cmp_cell};
use std::alloc::Global;
use std::cmp::Ordering;

/// What has an order.
pub trait Ordered {
    /// The order of the two.
    fn order(&self, other: &Self) -> Ordering;
}

impl Ordered for Value {
    fn order(&self, other: &Value) -> Ordering {
        self.as_ref().cmp(other.as_ref())
    }
}

impl Ordered for Cell {
    fn order(&self, other: &Cell) -> Ordering {
        cmp_cell(self, other)
    }
}

impl Ordered for Frac {
    fn order(&self, other: &Frac) -> Ordering {
        (*self).cmp(*other)
    }
}

impl Ordered for Bytes {
    fn order(&self, other: &Bytes) -> Ordering {
        self.cmp(other)
    }
}

/// Adds whether what the words behind a kind write stands in its order.
pub fn add_order(
    alloc: Global,
    kind: &str,
    words: &str,
    line: &mut String,
) -> Result<(), CaseFault> {
    match kind {
        "values" => add_order_of::<Value>(alloc, words, line),
        "cells" => add_order_of::<Cell>(alloc, words, line),
        "fractions" => add_order_of::<Frac>(alloc, words, line),
        "bytes" => add_order_of::<Bytes>(alloc, words, line),
        _ => Err(CaseFault::NoSuchCase),
    }
}

fn add_order_of<T: Listed + Ordered + Drop>(
    alloc: Global,
    words: &str,
    line: &mut String,
) -> Result<(), CaseFault> {
    let items = items_of::<T>(alloc, words, "|")?;
    match misplaced(items.as_slice()) {
        Some((place, other)) => Ok(write!(line, "not at {place} and {other}")?),
        None => Ok(line.push_str("yes")?),
    }
}

// The places of the first item, and the first other, that don't stand so that each is before all that follow it, behind all
// that come before it, and even with itself.
fn misplaced<T: Ordered>(items: &[T]) -> Option<(usize, usize)> {
    for (place, item) in items.iter().enumerate() {
        for (other_place, other) in items.iter().enumerate() {
            if item.order(other) != place.cmp(&other_place) {
                return Some((place, other_place));
            }
        }
    }
    None
}
