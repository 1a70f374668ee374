ghost use Rattle.std.specs.Prelude.{◌≡◌, ◌++◌, IfOk};

use lk_val::{Items, NoMemory};

/// One list of nodes behind another: the nodes are moved, and the first list grows in place.
pub fn append<T: Drop>(nodes: Items<T>, others: Items<T>) -> Result<Items<T>, NoMemory>
    ensures { IfOk result (λ all. all ≡ nodes ++ others) }
{
    let mut all = nodes.into_vec();
    all.append(&mut others.into_vec())?;
    Ok(Items::from_vec(all))
}
