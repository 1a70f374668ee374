// Numbers of a model's objects, and lists of them.

ghost use Rattle.std.specs.Prelude.{◌≡◌, IfOk};
ghost use Rattle.lk_semantics.specs.Joins.{numbers_below};
ghost use Rattle.lk_keeps.specs.Keeps.{is_of};

use lk_fill::has_number;
use lk_val::{Items, NoMemory};
use std::alloc::Global;

/// A place as a number. A number has 32 bits, so there is no room for more objects.
pub(crate) fn number_of(place: usize) -> Result<u32, NoMemory>
    ensures { IfOk result (λ number. number ≡ place) }
{
    if place > 0xffff_ffff {
        return Err(NoMemory);
    }
    Ok(place as u32)
}

/// The numbers below one, ascending.
pub(crate) fn numbers_below(alloc: Global, end: usize) -> Result<Items<u32>, NoMemory>
    ensures { IfOk result (λ numbers. numbers ≡ numbers_below end) }
{
    let mut numbers = Items::new(alloc);
    for place in 0..end {
        numbers.push(number_of(place)?)?;
    }
    Ok(numbers)
}

/// Whether a datagroup, if there is one, is one of some.
pub(crate) fn is_of(groups: &[u32], group: Option<u32>) -> bool
    ensures { result ≡ is_of groups.now group }
{
    match group {
        Some(group) => has_number(groups, group),
        None => false,
    }
}
