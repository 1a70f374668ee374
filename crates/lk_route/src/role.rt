// What an expression is beside the enforced key of a view, node by node.

ghost use Rattle.std.specs.Prelude.{◌≡◌, ◌&&◌, [], IfOk};
ghost use Rattle.std.specs.List.{list_all};
ghost use Rattle.lk_postfix.specs.Postfix.{after_nodes};
ghost use Rattle.lk_types.specs.FormulaNodes.{arity};
ghost use Rattle.lk_semantics.specs.Joins.{part_at};
ghost use Rattle.lk_semantics.specs.Rollups.{is_number};
ghost use Rattle.lk_route.specs.Roles.{all_over, both, does_find, operand, over, role_made, role_of, role_of_column};

use lk_postfix::{Stack, TakesOperands};
use lk_types::{Comparison, Explore, Expr, Node};
use lk_val::NoMemory;
use std::alloc::Global;

// What an expression is beside the enforced key of one view, and other views.
#[derive(Clone, Copy)]
pub(crate) struct Role {
    // It is the column of the key.
    pub(crate) is_key: bool,
    // It mentions only the other views.
    pub(crate) is_within: bool,
    // One of its conjuncts equates the key with an expression that mentions only the other views.
    pub(crate) finds: bool,
}

const NO_ROLE: Role = Role {
    is_key: false,
    is_within: true,
    finds: false,
};

/// What an expression is beside the enforced key of the view of a number, and some other views.
pub(crate) fn role_of(
    alloc: Global,
    x: &Explore,
    others: &[u32],
    view: usize,
    e: &Expr,
) -> Result<Role, NoMemory>
    ensures { IfOk result (λ role. role ≡ role_of x.now others.now view e.now) }
{
    let stack = roles(alloc, x, others, view, e.nodes())?;
    Ok(operand(stack.as_slice(), 0))
}

// The roles that the nodes leave on the stack.
fn roles(
    alloc: Global,
    x: &Explore,
    others: &[u32],
    view: usize,
    nodes: &[Node],
) -> Result<Stack<Role>, NoMemory>
    ensures { IfOk result (λ stack. stack ≡ after_nodes arity (role_made x.now others.now view) [] nodes.now) }
{
    let mut stack = Stack::new(alloc);
    for node in nodes {
        let count = node.arity();
        let made = role_made(x, others, view, node, stack.operands(count));
        stack.replace(count, made)?;
    }
    Ok(stack)
}

fn role_made(x: &Explore, others: &[u32], view: usize, node: &Node, roles: &[Role]) -> Role
    ensures { result ≡ role_made x.now others.now view node.now roles.now }
{
    let (a, b) = (operand(roles, 0), operand(roles, 1));
    match node {
        Node::Column(part, column) => role_of_column(x, others, view, *part, *column),
        Node::Literal(_) => NO_ROLE,
        Node::And => Role {
            finds: a.finds || b.finds,
            ..both(a, b)
        },
        Node::Compare(comparison) => Role {
            finds: does_find(*comparison, a, b),
            ..both(a, b)
        },
        Node::Or | Node::Number(_) | Node::Concat | Node::NullIf => both(a, b),
        Node::Between => both(both(a, b), operand(roles, 2)),
        Node::In(_) | Node::Case(_) | Node::Coalesce(_) => all_over(roles),
        Node::Framed(_) | Node::Not | Node::IsNull | Node::Like(_) => over(a),
        Node::Negate | Node::Lower | Node::Upper => over(a),
    }
}

fn operand(roles: &[Role], place: usize) -> Role
    ensures { result ≡ operand roles.now place }
{
    match roles.get(place) {
        Some(role) => *role,
        None => NO_ROLE,
    }
}

fn role_of_column(x: &Explore, others: &[u32], view: usize, part: u32, column: u32) -> Role
    ensures { result ≡ role_of_column x.now others.now view part column }
{
    Role {
        is_key: part as usize == view && is_enforced(x, view, column),
        is_within: others.contains(&part),
        finds: false,
    }
}

// Whether a column is that of the enforced key of a view.
fn is_enforced(x: &Explore, view: usize, column: u32) -> bool
    ensures { result ≡ is_number (part_at x.now view).enforced column }
{
    match x.parts.as_slice().get(view) {
        Some(part) => match part.enforced {
            Some(key) => key == column,
            None => false,
        },
        None => false,
    }
}

fn both(a: Role, b: Role) -> Role
    ensures { result ≡ both a b }
{
    Role {
        is_key: false,
        is_within: a.is_within && b.is_within,
        finds: false,
    }
}

fn over(a: Role) -> Role
    ensures { result ≡ over a }
{
    Role {
        is_key: false,
        is_within: a.is_within,
        finds: false,
    }
}

fn all_over(roles: &[Role]) -> Role
    ensures { result ≡ all_over roles.now }
{
    Role {
        is_key: false,
        is_within: are_all_within(roles),
        finds: false,
    }
}

fn are_all_within(roles: &[Role]) -> bool
    ensures { result ≡ list_all (λ role. role.is_within) roles.now }
{
    roles.iter().all(|role| role.is_within)
}

fn does_find(comparison: Comparison, a: Role, b: Role) -> bool
    ensures { result ≡ does_find comparison a b }
{
    match comparison {
        Comparison::Equal => finds_by(a, b) || finds_by(b, a),
        _ => false,
    }
}

fn finds_by(key: Role, other: Role) -> bool
    ensures { result ≡ (key.is_key && other.is_within) }
{
    key.is_key && other.is_within
}
