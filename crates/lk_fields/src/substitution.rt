ghost use Rattle.std.specs.Prelude.{◌≡◌, ◌++◌, IfOk, true};
ghost use Rattle.lk_postfix.specs.Postfix.{is_whole};
ghost use Rattle.lk_types.specs.FormulaNodes.{arity, formula_of};
ghost use Rattle.lk_fields.specs.Substituted.{replacement, substituted};
ghost use Rattle.lk_fields.specs.SubstitutedNodes.{IsAddedWith};

use lk_types::{Expr, Node};
use lk_val::{Copied, Items, NoMemory, Value};
use std::alloc::Global;

/// The expression with others in place of its columns: for a column of number i, whatever its part, the expression at
/// place i, and null where there is none. It takes memory in proportion to the new expression, and no more of the
/// machine's stack for a deeper one. (lookd)
pub fn substituted(alloc: Global, e: &Expr, by: &[Expr]) -> Result<Expr, NoMemory>
    ensures { IfOk result (λ made. made ≡ substituted (replacement by.now) e.now) }
{
    let old = e.nodes();
    let mut nodes = Items::new(alloc);
    for node in old {
        add_with(alloc, by, node, &mut nodes)?;
    }
    Ok(whole_expr(nodes))
}

// Adds a node, or in place of a column the nodes of what stands for it.
fn add_with(
    alloc: Global,
    by: &[Expr],
    node: &Node,
    nodes: &mut Items<Node>,
) -> Result<(), NoMemory>
    ensures { IfOk result (λ _. IsAddedWith (replacement by.now) node.now nodes.old nodes.new) }
{
    match node {
        Node::Column(_, column) => match by.get(*column as usize) {
            Some(replacement) => add_copies(alloc, replacement.nodes(), nodes),
            None => nodes.push(Node::Literal(Value::Null)),
        },
        other => nodes.push(other.copied(alloc)?),
    }
}

fn add_copies(alloc: Global, added: &[Node], nodes: &mut Items<Node>) -> Result<(), NoMemory>
    ensures { IfOk result (λ _. nodes.new ≡ nodes.old ++ added.now) }
{
    for node in added {
        nodes.push(node.copied(alloc)?)?;
    }
    Ok(())
}

// The expression of nodes that build one.
fn whole_expr(nodes: Items<Node>) -> Expr
    requires { is_whole arity nodes ≡ true }
    ensures { result ≡ formula_of nodes }
{
    match Expr::from_nodes(nodes) {
        Some(expr) => expr,
        None => unreachable!(),
    }
}
