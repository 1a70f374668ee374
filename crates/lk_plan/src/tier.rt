// A tier as CASE over its bounds.

ghost use Rattle.std.specs.Prelude.{◌≡◌, ◌++◌, ◌^◌, ◌*ℤ◌, pos, neg_ℤ, true, IfOk, OnOk};
ghost use Rattle.std.specs.List.{list_all};
ghost use Rattle.lk_types.specs.Formula.{Case};
ghost use Rattle.lk_types.specs.FormulaNodes.{cases_of};
ghost use Rattle.lk_plan.specs.FieldFormulas.{number_literal, tier_formula};
ghost use Rattle.lk_plan.specs.TierOperands.{is_bound, tier_operands, tier_pair};

use crate::building::{compare, literal};
use lk_types::{Comparison, Expr, Node};
use lk_val::{Copied, Items, NoMemory, Num, Value};
use std::alloc::Global;

// How many ten thousandths a whole number has.
const WHOLE: i64 = 10_000;

// A tier by its lower bound, where the bounds are whole numbers: the least number below the first.
pub(crate) fn tier_formula(alloc: Global, e: &Expr, bounds: &[i64]) -> Result<Expr, NoMemory>
    requires { list_all is_bound bounds.now ≡ true }
    ensures { IfOk result (λ made. made ≡ tier_formula e.now bounds.now) }
{
    let operands = tier_operands(alloc, e, bounds)?;
    choice(alloc, operands.as_slice())
}

// The conditions of the tiers, from the lowest on, each with its value.
fn tier_operands(alloc: Global, e: &Expr, bounds: &[i64]) -> Result<Items<Expr>, NoMemory>
    requires { list_all is_bound bounds.now ≡ true }
    ensures { IfOk result (λ operands. operands ≡ tier_operands e.now (neg_ℤ (pos (2 ^ 63))) bounds.now) }
{
    let mut operands = Items::new(alloc);
    let mut low = Num(i64::MIN);
    for bound in bounds {
        let next = Num(*bound * WHOLE);
        add_tier(alloc, e, Comparison::Less, next, low, &mut operands)?;
        low = next;
    }
    add_tier(alloc, e, Comparison::AtLeast, low, low, &mut operands)?;
    Ok(operands)
}

// Adds that the expression compares so with a number, and the value of its tier.
fn add_tier(
    alloc: Global,
    e: &Expr,
    comparison: Comparison,
    bound: Num,
    low: Num,
    operands: &mut Items<Expr>,
) -> Result<(), NoMemory>
    ensures { OnOk result (operands.new ≡ operands.old ++ tier_pair e.now comparison bound.0 low.0) }
{
    operands.push(compare(alloc, comparison, e, Value::Num(bound))?)?;
    operands.push(literal(alloc, Value::Num(low))?)?;
    Ok(())
}

// CASE over conditions and values in turn.
fn choice(alloc: Global, operands: &[Expr]) -> Result<Expr, NoMemory>
    ensures { IfOk result (λ e. e ≡ Case (cases_of operands.now)) }
{
    let mut nodes = Items::new(alloc);
    for operand in operands {
        add_copies(alloc, operand.nodes(), &mut nodes)?;
    }
    nodes.push(Node::Case(operands.len()))?;
    Ok(Expr::from_nodes(nodes).unwrap())
}

// Adds copies of some nodes at the end.
fn add_copies(alloc: Global, added: &[Node], nodes: &mut Items<Node>) -> Result<(), NoMemory>
    ensures { OnOk result (nodes.new ≡ nodes.old ++ added.now) }
{
    for node in added {
        nodes.push(node.copied(alloc)?)?;
    }
    Ok(())
}
