ghost use Rattle.std.specs.Prelude.{◌≡◌};
ghost use Rattle.lk_written.specs.Blocks.{begins_with_plus, block_items, block_name, is_block_of, is_named_block};

use lk_params::{parameters_of, titled};
use lk_read::{Item, Node};

/// Whether a value is a block with a name that has no plus; one with a plus refines an object of a file, and names nothing
/// within one.
pub fn is_named_block(value: &Node) -> bool
    ensures { result ≡ is_named_block value.now }
{
    match value {
        Node::Block(Some(title), _) => !begins_with_plus(title.as_bytes()),
        _ => false,
    }
}

fn begins_with_plus(title: &[u8]) -> bool
    ensures { result ≡ begins_with_plus title.now }
{
    match title {
        [first, ..] => *first == b'+',
        [] => false,
    }
}

/// The name of a parameter's block, and nothing where it is no block or has no name.
pub fn block_name(item: &Item) -> &str
    ensures { result.now ≡ block_name item.now }
{
    match titled(&item.value) {
        None => "",
        Some(title) => title.as_str(),
    }
}

/// The parameters in a parameter's block, and none where it is no block.
pub fn block_items(item: &Item) -> &[Item]
    ensures { result.now ≡ block_items item.now }
{
    match &item.value {
        Node::Block(_, tree) => parameters_of(tree),
        _ => &[],
    }
}

/// Whether a parameter is a block of this kind that has a name.
pub fn is_block_of(kind: &str, item: &Item) -> bool
    ensures { result ≡ is_block_of kind.now item.now }
{
    item.name.as_str() == kind && titled(&item.value).is_some()
}
