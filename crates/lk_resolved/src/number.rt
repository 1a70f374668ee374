ghost use Rattle.std.specs.Prelude.{◌≡◌, Some, IfOk, map, slice_get};
ghost use Rattle.lk_fields.specs.declared.scope.Sort.TheVariants as sort;
ghost use Rattle.lk_fields.specs.declared.scope.Writer.TheVariants as writer;
ghost use Rattle.lk_formulas.specs.Formulas.{field_named};
ghost use Rattle.lk_resolved.specs.Fields.{number_named, number_with, renumbered};
ghost use Rattle.lk_resolved.specs.NumberNodes.{node_renumbered, number_at};
ghost use Rattle.lk_resolved.specs.Numbers.{AreNamed};

use crate::names::Named;
use lk_fields::{Found, Sort, Writer, found_in};
use lk_objects::{Code, Reference, WrittenNumber};
use lk_scope::ScopeFields;
use lk_types::{NumExpr, NumNode};
use lk_val::{Items, NoMemory};
use std::alloc::Global;

// The calculation of a measure of type number, over the numbers of measures; none of any other code.
pub(crate) fn number_with(
    alloc: Global,
    fields: &ScopeFields,
    named: &Named,
    part: u32,
    code: &Code,
) -> Result<Option<NumExpr>, NoMemory>
    requires named { AreNamed fields.now.views.now fields.now.scope.now named.now }
    ensures { IfOk result (λ number. number ≡ number_with fields.now.views.now fields.now.scope.now part code.now) }
{
    match code {
        Code::Number(written) => Ok(Some(renumbered(alloc, fields, named, part, written)?)),
        _ => Ok(None),
    }
}

fn renumbered(
    alloc: Global,
    fields: &ScopeFields,
    named: &Named,
    part: u32,
    written: &WrittenNumber,
) -> Result<NumExpr, NoMemory>
    requires named { AreNamed fields.now.views.now fields.now.scope.now named.now }
    ensures { IfOk result (λ e. e ≡ renumbered (λ i. number_named fields.now.views.now fields.now.scope.now part (slice_get written.now.references i)) written.now.expr) }
{
    let numbers = numbers(alloc, fields, named, part, written.references.as_slice())?;
    with_numbers(alloc, &written.expr, numbers.as_slice())
}

// The numbers of the measures that some references name.
fn numbers(
    alloc: Global,
    fields: &ScopeFields,
    named: &Named,
    part: u32,
    references: &[Reference],
) -> Result<Items<u32>, NoMemory>
    requires named { AreNamed fields.now.views.now fields.now.scope.now named.now }
    ensures { IfOk result (λ numbers. numbers ≡ map (λ r. number_named fields.now.views.now fields.now.scope.now part (Some r)) references.now) }
{
    let mut numbers = Items::new(alloc);
    for reference in references {
        numbers.push(number_named(fields, named, part, reference)?)?;
    }
    Ok(numbers)
}

fn number_named(
    fields: &ScopeFields,
    named: &Named,
    part: u32,
    reference: &Reference,
) -> Result<u32, NoMemory>
    requires named { AreNamed fields.now.views.now fields.now.scope.now named.now }
    ensures { IfOk result (λ n. n ≡ number_named fields.now.views.now fields.now.scope.now part (Some reference.now)) }
{
    match measure_meant(fields, part, reference)? {
        None => Ok(0),
        Some(found) => named.measure(found.place),
    }
}

// The measure that a reference in the text of a part names.
fn measure_meant(
    fields: &ScopeFields,
    part: u32,
    reference: &Reference,
) -> Result<Option<Found>, NoMemory>
    ensures { IfOk result (λ found. found ≡ field_named fields.now.views.now fields.now.scope.now (writer.Field part) sort.Measure reference.now) }
{
    let writer = Writer::Field(part);
    match reference {
        Reference::Own(name) => found_in(
            fields.views,
            fields.scope,
            writer,
            None,
            name.as_str(),
            Sort::Measure,
        ),
        Reference::Of(view, name) => found_in(
            fields.views,
            fields.scope,
            writer,
            Some(view.as_str()),
            name.as_str(),
            Sort::Measure,
        ),
        Reference::Column(_) => Ok(None),
    }
}

// An expression over measures with the numbers in place of their places among some references.
fn with_numbers(alloc: Global, e: &NumExpr, numbers: &[u32]) -> Result<NumExpr, NoMemory>
    ensures { IfOk result (λ made. made ≡ renumbered (number_at numbers.now) e.now) }
{
    let nodes = nodes_with(alloc, e.nodes(), numbers)?;
    Ok(NumExpr::from_nodes(nodes).unwrap())
}

fn nodes_with(alloc: Global, nodes: &[NumNode], numbers: &[u32]) -> Result<Items<NumNode>, NoMemory>
    ensures { IfOk result (λ made. made ≡ map (node_renumbered (number_at numbers.now)) nodes.now) }
{
    let mut made = Items::new(alloc);
    for node in nodes {
        made.push(node_with(*node, numbers))?;
    }
    Ok(made)
}

fn node_with(node: NumNode, numbers: &[u32]) -> NumNode
    ensures { result ≡ node_renumbered (number_at numbers.now) node }
{
    match node {
        NumNode::Measure(i) => NumNode::Measure(number_at(numbers, i)),
        other => other,
    }
}

fn number_at(numbers: &[u32], i: u32) -> u32
    ensures { result ≡ number_at numbers.now i }
{
    match numbers.get(i as usize) {
        None => 0,
        Some(number) => *number,
    }
}
