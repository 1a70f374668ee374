ghost use Rattle.std.specs.Prelude.{◌≡◌};
ghost use Rattle.std.specs.List.{list_all};
ghost use Rattle.lk_types.specs.Dates.{is_dated, is_part_dated, is_row_dated, are_literals_dated};
ghost use Rattle.lk_eval.specs.NodeValues.{is_node_dated};

use lk_time::is_in_years;
use lk_types::{Expr, Joined, Node};
use lk_val::{Items, Value};

/// Whether each day and moment of a joined row's cells is of the years 1 to 9999, as `eval` wants them.
pub fn is_row_dated(row: &Joined) -> bool
    ensures { result ≡ is_row_dated row.now }
{
    row.parts.as_slice().iter().all(|part| is_part_dated(part))
}

/// Whether each day and moment among an expression's literals is of the years 1 to 9999, as `eval` wants them.
pub fn are_literals_dated(e: &Expr) -> bool
    ensures { result ≡ are_literals_dated e.now }
{
    are_nodes_dated(e.nodes())
}

fn are_nodes_dated(nodes: &[Node]) -> bool
    ensures { result ≡ list_all is_node_dated nodes.now }
{
    nodes.iter().all(|node| is_node_dated(node))
}

fn is_node_dated(node: &Node) -> bool
    ensures { result ≡ is_node_dated node.now }
{
    match node {
        Node::Literal(v) => is_dated(v),
        _ => true,
    }
}

fn is_part_dated(part: &Option<Items<Value>>) -> bool
    ensures { result ≡ is_part_dated part.now }
{
    match part {
        Some(cells) => are_cells_dated(cells.as_slice()),
        None => true,
    }
}

fn are_cells_dated(cells: &[Value]) -> bool
    ensures { result ≡ list_all is_dated cells.now }
{
    cells.iter().all(|v| is_dated(v))
}

fn is_dated(v: &Value) -> bool
    ensures { result ≡ is_dated v.now }
{
    match v {
        Value::Day(_) | Value::Moment(_) => is_in_years(v),
        _ => true,
    }
}
