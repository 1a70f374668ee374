ghost use Rattle.std.specs.Prelude.{◌≡◌, ◌++◌, true, IfOk};
ghost use Rattle.std.specs.Str.{is_utf8};
ghost use Rattle.lk_written.specs.SkeletonNodes.{is_named, node_references};

use lk_expr_tree::RawNode;
use lk_objects::Reference;
use lk_val::{Bytes, Items, NoMemory, Text};
use std::alloc::Global;

/// Adds the name that a node is, if it is one.
pub(crate) fn add_reference(
    alloc: Global,
    node: &RawNode,
    references: &mut Items<Reference>,
) -> Result<(), NoMemory>
    requires { is_named node.now ≡ true }
    ensures { IfOk result (λ _. references.new ≡ references.old ++ node_references node.now) }
{
    match node {
        RawNode::Name(name, _) | RawNode::Column(name) => {
            references.push(Reference::Column(name_text(alloc, name)?))
        }
        RawNode::Field(name) => references.push(Reference::Own(name_text(alloc, name)?)),
        RawNode::FieldOf(view, name) => {
            let view = name_text(alloc, view)?;
            references.push(Reference::Of(view, name_text(alloc, name)?))
        }
        _ => Ok(()),
    }
}

fn name_text(alloc: Global, name: &Bytes) -> Result<Text, NoMemory>
    requires { is_utf8 name.now ≡ true }
    ensures { IfOk result (λ text. text ≡ name.now) }
{
    match Text::from_utf8(alloc, name.as_slice())? {
        Some(text) => Ok(text),
        None => unreachable!(),
    }
}
