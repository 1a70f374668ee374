ghost use Rattle.std.specs.Prelude.{◌≡◌, IfOk, option_map};
ghost use Rattle.lk_params.specs.Parameters.{items_of, last_named, named};

use crate::copies::copy_item;
use lk_read::{Item, Tree};
use lk_val::{Items, NoMemory};
use std::alloc::Global;

/// The parameters of a block, in order.
#[tactic(auto, using(crate::proofs::ItemLaws::items_of_outline))]
pub fn parameters_of(tree: &Tree) -> &[Item]
    ensures { result.now ≡ items_of tree.now }
{
    tree.items()
}

/// The parameter of a name that counts: the last of its block. (Looker, LookML reference)
#[tactic(auto, using(crate::proofs::Steps::option_or_assoc))]
pub fn last_named<'a>(name: &str, items: &'a [Item]) -> Option<&'a Item>
    ensures { option_map (λ item. item.now) result ≡ last_named name.now items.now }
{
    let mut found = None;
    for item in items {
        if item.name.as_str() == name {
            found = Some(item);
        }
    }
    found
}

/// The parameters of a name, in order, copied.
pub fn named(alloc: Global, name: &str, items: &[Item]) -> Result<Items<Item>, NoMemory>
    ensures { IfOk result (λ found. found ≡ named name.now items.now) }
{
    let mut found = Items::new(alloc);
    for item in items {
        if item.name.as_str() == name {
            found.push(copy_item(alloc, item)?)?;
        }
    }
    Ok(found)
}
