// Lists of numbers.

ghost use Rattle.std.specs.Prelude.{◌≡◌, ◌++◌, OnOk};
ghost use Rattle.lk_types.specs.Expressions.{has_number};

use lk_val::{Items, NoMemory};

/// Whether a number is among some.
pub fn has_number(numbers: &[u32], number: u32) -> bool
    ensures { result ≡ has_number number numbers.now }
{
    numbers.iter().any(|other| number == *other)
}

/// Adds numbers behind those of a list.
pub fn add_numbers(numbers: &mut Items<u32>, more: &[u32]) -> Result<(), NoMemory>
    ensures { OnOk result (numbers.new ≡ numbers.old ++ more.now) }
{
    for number in more {
        numbers.push(*number)?;
    }
    Ok(())
}
