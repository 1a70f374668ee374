ghost use Rattle.std.specs.Prelude.{◌≡◌, ◌-◌, ◌^◌, List, map, min};
ghost use Rattle.std.specs.List.{count_by, sum_by};
ghost use Rattle.lk_types.specs.Formula.{Formula};
ghost use Rattle.lk_fields.specs.Substituted.{nodes_in, replacement, substituted, told_nodes};
ghost use Rattle.lk_fields.specs.SubstitutedNodes.{count_with, is_bare_list};

use lk_types::{Expr, Node};

/// How many nodes an expression has: one for each operator, function, CASE, literal, column and timeframe. A pattern is
/// none. (lookd)
pub fn nodes_in(e: &Expr) -> usize
    ensures { result ≡ nodes_in e.now }
{
    let nodes = e.nodes();
    // A search in a list without operands looks for null, which has no node of its own.
    nodes.len() + count_bare_lists(nodes)
}

fn count_bare_lists(nodes: &[Node]) -> usize
    ensures { result ≡ count_by is_bare_list nodes.now }
{
    nodes.iter().filter(|node| is_bare_list(node)).count()
}

// Whether the node is a search in a list without operands.
fn is_bare_list(node: &Node) -> bool
    ensures { result ≡ is_bare_list node.now }
{
    match node {
        Node::In(count) => *count == 0,
        _ => false,
    }
}

/// How many nodes the expression has with others in place of its columns, given how many the one for each column's
/// number has; one past the end, where null stands. The greatest number means so many and more, there and here. (lookd)
pub fn nodes_with(e: &Expr, counts: &[usize]) -> usize
    ensures { (by : List Formula) → counts.now ≡ map told_nodes by → result ≡ told_nodes (substituted (replacement by) e.now) }
{
    total_with(e.nodes(), counts)
}

fn total_with(nodes: &[Node], counts: &[usize]) -> usize
    ensures { result ≡ min (sum_by (count_with counts.now) nodes.now) (2 ^ 64 - 1) }
{
    let mut total = 0usize;
    for node in nodes {
        total = total.saturating_add(count_with(counts, node));
    }
    total
}

// What a node adds to the number: a column as many as stand for it, and one where nothing does.
fn count_with(counts: &[usize], node: &Node) -> usize
    ensures { result ≡ count_with counts.now node.now }
{
    match node {
        Node::Column(_, column) => counts.get(*column as usize).copied().unwrap_or(1),
        Node::In(count) => if *count == 0 { 2 } else { 1 },
        _ => 1,
    }
}
