ghost use Rattle.std.specs.Prelude.{◌≡◌, IfOk};
ghost use Rattle.lk_val.specs.Distinct.{do_differ};

use crate::items::Items;
use crate::memory::NoMemory;
use std::alloc::Global;
use std::collections::BTreeSet;

/// Whether nothing stands twice in the list.
pub fn do_differ<T: Ord + Drop>(alloc: Global, items: Items<T>) -> Result<bool, NoMemory>
    ensures { IfOk result (λ differ. differ ≡ do_differ T.eq items) }
{
    let mut seen = BTreeSet::new(alloc);
    for item in items.into_vec() {
        if !seen.insert(item)? {
            return Ok(false);
        }
    }
    Ok(true)
}
