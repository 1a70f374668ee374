ghost use Rattle.std.specs.Prelude.{◌≡◌, ◌&&◌, [], IfOk};
ghost use Rattle.std.specs.List.{list_all};
ghost use Rattle.lk_postfix.specs.Postfix.{after_nodes};
ghost use Rattle.lk_types.specs.FormulaNodes.{arity};
ghost use Rattle.lk_semantics.specs.Joins.{part_at};
ghost use Rattle.lk_semantics.specs.Rollups.{is_number};
ghost use Rattle.lk_tree.specs.Roles.{all_over, both, does_find, is_marked, operand, over, role_made, role_of, role_of_column};

use lk_postfix::{Stack, TakesOperands};
use lk_types::{Comparison, Explore, Expr, Node};
use lk_val::NoMemory;
use std::alloc::Global;

// What an expression is, beside one view and others that are marked.
#[derive(Clone, Copy)]
pub(crate) struct Role {
    // It is the column of the view's enforced key.
    pub(crate) is_key: bool,
    // It mentions only marked views.
    pub(crate) is_marked: bool,
    // It mentions only the view and marked ones.
    pub(crate) is_near: bool,
    // One of its conjuncts equates the view's enforced key with an expression that mentions only marked views.
    pub(crate) finds: bool,
}

pub(crate) const NO_ROLE: Role = Role {
    is_key: false,
    is_marked: true,
    is_near: true,
    finds: false,
};

// What an expression is beside the view w.
pub(crate) fn role_of(
    alloc: Global,
    x: &Explore,
    marks: &[bool],
    w: u32,
    e: &Expr,
) -> Result<Role, NoMemory>
    ensures { IfOk result (λ role. role ≡ role_of x.now marks.now w e.now) }
{
    let stack = roles(alloc, x, marks, w, e.nodes())?;
    Ok(operand(stack.as_slice(), 0))
}

// The roles that the nodes leave on the stack.
fn roles(
    alloc: Global,
    x: &Explore,
    marks: &[bool],
    w: u32,
    nodes: &[Node],
) -> Result<Stack<Role>, NoMemory>
    ensures { IfOk result (λ stack. stack ≡ after_nodes arity (role_made x.now marks.now w) [] nodes.now) }
{
    let mut stack = Stack::new(alloc);
    for node in nodes {
        let count = node.arity();
        let made = role_made(x, marks, w, node, stack.operands(count));
        stack.replace(count, made)?;
    }
    Ok(stack)
}

fn role_made(x: &Explore, marks: &[bool], w: u32, node: &Node, roles: &[Role]) -> Role
    ensures { result ≡ role_made x.now marks.now w node.now roles.now }
{
    let (a, b) = (operand(roles, 0), operand(roles, 1));
    match node {
        Node::Column(part, column) => role_of_column(x, marks, w, *part, *column),
        Node::Literal(_) => NO_ROLE,
        Node::And => Role {
            finds: a.finds || b.finds,
            ..both(a, b)
        },
        Node::Compare(comparison) => Role {
            finds: does_find(*comparison, a, b),
            ..both(a, b)
        },
        Node::Or | Node::Number(_) | Node::Concat | Node::NullIf => both(a, b),
        Node::Between => both(both(a, b), operand(roles, 2)),
        Node::In(_) | Node::Case(_) | Node::Coalesce(_) => all_over(roles),
        Node::Framed(_) | Node::Not | Node::IsNull | Node::Like(_) => over(a),
        Node::Negate | Node::Lower | Node::Upper => over(a),
    }
}

fn operand(roles: &[Role], place: usize) -> Role
    ensures { result ≡ operand roles.now place }
{
    match roles.get(place) {
        Some(role) => *role,
        None => NO_ROLE,
    }
}

fn role_of_column(x: &Explore, marks: &[bool], w: u32, part: u32, column: u32) -> Role
    ensures { result ≡ role_of_column x.now marks.now w part column }
{
    Role {
        is_key: is_key(x, w, part, column),
        is_marked: is_marked(marks, part as usize),
        is_near: part == w || is_marked(marks, part as usize),
        finds: false,
    }
}

// Whether a column is the enforced key of the view w.
fn is_key(x: &Explore, w: u32, part: u32, column: u32) -> bool
    ensures { result ≡ (role_of_column x.now [] w part column).is_key }
{
    part == w && is_enforced(x, w, column)
}

fn is_enforced(x: &Explore, w: u32, column: u32) -> bool
    ensures { result ≡ is_number (part_at x.now w).enforced column }
{
    match x.parts.as_slice().get(w as usize) {
        Some(view) => match view.enforced {
            Some(key) => key == column,
            None => false,
        },
        None => false,
    }
}

pub(crate) fn is_marked(marks: &[bool], part: usize) -> bool
    ensures { result ≡ is_marked marks.now part }
{
    match marks.get(part) {
        Some(mark) => *mark,
        None => false,
    }
}

fn both(a: Role, b: Role) -> Role
    ensures { result ≡ both a b }
{
    Role {
        is_key: false,
        is_marked: a.is_marked && b.is_marked,
        is_near: a.is_near && b.is_near,
        finds: false,
    }
}

fn over(a: Role) -> Role
    ensures { result ≡ over a }
{
    Role {
        is_key: false,
        finds: false,
        ..a
    }
}

fn all_over(roles: &[Role]) -> Role
    ensures { result ≡ all_over roles.now }
{
    Role {
        is_key: false,
        is_marked: are_all_marked(roles),
        is_near: are_all_near(roles),
        finds: false,
    }
}

fn are_all_marked(roles: &[Role]) -> bool
    ensures { result ≡ list_all (λ r. r.is_marked) roles.now }
{
    roles.iter().all(|role| role.is_marked)
}

fn are_all_near(roles: &[Role]) -> bool
    ensures { result ≡ list_all (λ r. r.is_near) roles.now }
{
    roles.iter().all(|role| role.is_near)
}

fn does_find(comparison: Comparison, a: Role, b: Role) -> bool
    ensures { result ≡ does_find comparison a b }
{
    match comparison {
        Comparison::Equal => finds_by(a, b) || finds_by(b, a),
        _ => false,
    }
}

fn finds_by(key: Role, other: Role) -> bool
    ensures { result ≡ (key.is_key && other.is_marked) }
{
    key.is_key && other.is_marked
}
