ghost use Rattle.std.specs.Prelude.{◌≡◌, ◌+◌, ◌++◌, IfOk};
ghost use Rattle.lk_written.specs.Entries.{filter_entries};

use lk_objects::Entry;
use lk_val::{Items, NoMemory};

/// Adds filters to what a stored query names, numbered from the first one on, and answers the next number. More numbers than
/// there are want memory.
pub fn add_filter_entries(
    first: u32,
    count: usize,
    entries: &mut Items<Entry>,
) -> Result<u32, NoMemory>
    ensures numbered { IfOk result (λ _. entries.new ≡ entries.old ++ filter_entries first count) }
    ensures next { IfOk result (λ next. next ≡ first + count) }
{
    let mut number = first;
    for _done in 0..count {
        entries.push(Entry::Filter(number))?;
        number = next_number(number)?;
    }
    Ok(number)
}

fn next_number(number: u32) -> Result<u32, NoMemory>
    ensures { IfOk result (λ next. next ≡ number + 1) }
{
    match number.checked_add(1) {
        Some(next) => Ok(next),
        None => Err(NoMemory),
    }
}
