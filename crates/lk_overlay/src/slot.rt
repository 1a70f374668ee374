ghost use Rattle.std.specs.Prelude.{◌≡◌, IfOk};
ghost use Rattle.lk_overlay.specs.Overlay.{merges, accumulates, slot_of};

use crate::kind::Kind;
use lk_params::copy_item;
use lk_read::{Item, Node};
use lk_val::{NoMemory, Text};
use std::alloc::Global;

/// Where a parameter of an object goes when its contributors are merged.
#[derive(Drop)]
pub enum Slot {
    /// By its name: the last contributor that has it decides.
    Parameter(Text),
    /// By its kind and name: the blocks of all contributors are merged.
    Child(Text, Text),
    /// By itself: every one stays.
    Alone(Item),
}

/// The slot of a parameter.
pub fn slot_of(alloc: Global, kind: Kind, item: &Item) -> Result<Slot, NoMemory>
    ensures { IfOk result (λ slot. slot ≡ slot_of kind item.now) }
{
    match &item.value {
        Node::Block(Some(title), _) if merges(kind, item.name.as_str()) => {
            Ok(Slot::Child(item.name.copy(alloc)?, title.copy(alloc)?))
        }
        _ => {
            if accumulates(kind, item.name.as_str()) {
                Ok(Slot::Alone(copy_item(alloc, item)?))
            } else {
                Ok(Slot::Parameter(item.name.copy(alloc)?))
            }
        }
    }
}

fn merges(kind: Kind, name: &str) -> bool
    ensures { result ≡ merges kind name.now }
{
    match kind {
        Kind::View => name == "dimension" || name == "dimension_group" || name == "measure",
        Kind::Explore => name == "join",
        Kind::Datagroup => false,
    }
}

fn accumulates(kind: Kind, name: &str) -> bool
    ensures { result ≡ accumulates kind name.now }
{
    match kind {
        Kind::Explore => name == "access_filter" || name == "aggregate_table",
        Kind::View | Kind::Datagroup => false,
    }
}
