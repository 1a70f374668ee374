ghost use Rattle.std.specs.Prelude.{◌≡◌, [], IfOk, nat_eq, option_and_then, pos, position, slice_index_or, unwrap_or};
ghost use Rattle.lk_postfix.specs.Postfix.{after_nodes};
ghost use Rattle.lk_types.specs.CalculationNodes.{arity};
ghost use Rattle.lk_semantics.specs.Answers.{applied, are_equal, calculated, component_cell, frac_of_cell, frac_of_value, or_else, with_both};
ghost use Rattle.lk_val.specs.Fractions.{frac_neg, frac_of_count, frac_of_sum, reduced};
ghost use Rattle.lk_val.specs.declared.cell.Cell.TheVariants as cell;
ghost use Rattle.lk_val.specs.declared.value.Value.TheVariants as value;
ghost use Rattle.lk_lines.specs.Values.{first_known, null_if, operand, value_made};

use lk_postfix::{Stack, TakesOperands};
use lk_types::{Arithmetic, NumExpr, NumNode};
use lk_val::{Cell, Frac, NoMemory, Value};
use std::alloc::Global;

/// The value of a calculation over components, of which a group has these cells; null where a part is null or a
/// number formed on the way is not of 128 bits. One pass over its nodes. (Looker, LookML reference: type number)
pub fn calculated(
    alloc: Global,
    e: &NumExpr,
    components: &[u32],
    cells: &[Cell],
) -> Result<Option<Frac>, NoMemory>
    ensures { IfOk result (λ v. v
        ≡ calculated (λ m. frac_of_cell (component_cell components.now cells.now m)) e.now) }
{
    let stack = values(alloc, e.nodes(), components, cells)?;
    Ok(nth(stack.as_slice(), 0))
}

// The values that the nodes leave on the stack.
fn values(
    alloc: Global,
    nodes: &[NumNode],
    components: &[u32],
    cells: &[Cell],
) -> Result<Stack<Option<Frac>>, NoMemory>
    ensures { IfOk result (λ stack. stack ≡ after_nodes arity
        (value_made (λ m. frac_of_cell (component_cell components.now cells.now m))) [] nodes.now) }
{
    let mut stack = Stack::new(alloc);
    for node in nodes {
        let count = node.arity();
        let made = value_made(*node, stack.operands(count), components, cells);
        stack.replace(count, made)?;
    }
    Ok(stack)
}

// What a node makes of its operands.
fn value_made(
    node: NumNode,
    operands: &[Option<Frac>],
    components: &[u32],
    cells: &[Cell],
) -> Option<Frac>
    ensures { result ≡ value_made (λ m. frac_of_cell (component_cell components.now cells.now m))
        node operands.now }
{
    match node {
        NumNode::Measure(m) => component_value(components, cells, m),
        NumNode::Literal(n) => Some(frac_of_sum(i128::from(n.0))),
        NumNode::Number(op) => with_both(op, nth(operands, 0), nth(operands, 1)),
        NumNode::Negate => negated(nth(operands, 0)),
        NumNode::Coalesce(_) => first_known(operands),
        NumNode::NullIf => null_if(&nth(operands, 0), &nth(operands, 1)),
    }
}

// The value of an operand by its place, null where there is none.
fn nth(operands: &[Option<Frac>], place: usize) -> Option<Frac>
    ensures { result ≡ operand operands.now place }
{
    match operands.get(place) {
        Some(value) => *value,
        None => None,
    }
}

fn with_both(op: Arithmetic, a: Option<Frac>, b: Option<Frac>) -> Option<Frac>
    ensures { result ≡ with_both (applied op) a b }
{
    match (a, b) {
        (Some(a), Some(b)) => applied(op, a, b),
        _ => None,
    }
}

fn applied(op: Arithmetic, a: Frac, b: Frac) -> Option<Frac>
    ensures { result ≡ applied op a b }
{
    match op {
        Arithmetic::Plus => a.add(b),
        Arithmetic::Minus => a.sub(b),
        Arithmetic::Times => a.mul(b),
        Arithmetic::Over => a.div(b),
    }
}

fn negated(a: Option<Frac>) -> Option<Frac>
    ensures { result ≡ option_and_then frac_neg a }
{
    match a {
        Some(a) => a.neg(),
        None => None,
    }
}

fn first_known(operands: &[Option<Frac>]) -> Option<Frac>
    ensures { result ≡ first_known operands.now }
{
    for value in operands {
        if let Some(known) = value {
            return Some(*known);
        }
    }
    None
}

fn null_if(a: &Option<Frac>, b: &Option<Frac>) -> Option<Frac>
    ensures { result ≡ null_if a.now b.now }
{
    if are_equal(a, b) { None } else { *a }
}

fn are_equal(a: &Option<Frac>, b: &Option<Frac>) -> bool
    ensures { result ≡ are_equal a.now b.now }
{
    match (a, b) {
        (Some(a), Some(b)) => (*a).cmp(*b).is_eq(),
        _ => false,
    }
}

fn component_value(components: &[u32], cells: &[Cell], m: u32) -> Option<Frac>
    ensures { result ≡ frac_of_cell (component_cell components.now cells.now m) }
{
    value_at(cells, place_of(components, m))
}

// The place of a component, and the first place where it is none.
pub(crate) fn place_of(components: &[u32], m: u32) -> usize
    ensures { result ≡ unwrap_or (position (nat_eq m) components.now) 0 }
{
    found_place(components, m).unwrap_or(0)
}

fn found_place(components: &[u32], m: u32) -> Option<usize>
    ensures { result ≡ position (nat_eq m) components.now }
{
    components.iter().position(|component| m == *component)
}

fn value_at(cells: &[Cell], place: usize) -> Option<Frac>
    ensures { result ≡ frac_of_cell (slice_index_or cells.now place (cell.Value value.Null)) }
{
    match cells.get(place) {
        Some(cell) => frac_of_cell(cell),
        None => None,
    }
}

// A cell as a fraction, null where it is no number.
fn frac_of_cell(cell: &Cell) -> Option<Frac>
    ensures { result ≡ frac_of_cell cell.now }
{
    match cell {
        Cell::Value(value) => frac_of_value(value),
        Cell::Count(count) => Some(frac_of_count(*count)),
        Cell::Sum(sum) => Some(frac_of_sum(*sum)),
        Cell::Frac(fraction) => Some(*fraction),
    }
}

fn frac_of_value(value: &Value) -> Option<Frac>
    ensures { result ≡ frac_of_value value.now }
{
    match value {
        Value::Num(num) => Some(frac_of_sum(i128::from(num.0))),
        _ => None,
    }
}

pub(crate) fn frac_of_sum(sum: i128) -> Frac
    ensures { result ≡ frac_of_sum sum }
{
    Frac::new(sum, 10000)
}

pub(crate) fn frac_of_count(count: u64) -> Frac
    ensures { result ≡ frac_of_count count }
{
    whole_frac(i128::from(count))
}

fn whole_frac(n: i128) -> Frac
    ensures { result ≡ reduced n (pos 1) }
{
    Frac::new(n, 1)
}
