ghost use Rattle.std.specs.Prelude.{◌≡◌, ◌++◌, ◌∷◌, [], IfOk, OnOk, flat_map, length, if◌then◌else◌, option_map};
ghost use Rattle.lk_types.specs.Expressions.{has_number};
ghost use Rattle.lk_semantics.specs.Answers.{components_of, first_each, measure_at, measures_in, parts_of_measure};
ghost use Rattle.lk_tree.specs.Components.{node_measures, stacked};

use lk_types::{Explore, NumExpr, NumNode};
use lk_val::{Items, NoMemory};
use std::alloc::Global;

/// What some measures of an explore are put together from: the measures that are no `number`, each once, in the order
/// in which they are met from left to right. A chain of `number`s of any length takes no more of the machine's stack.
/// (Looker, LookML reference: type number)
pub fn components(alloc: Global, x: &Explore, measures: &[u32]) -> Result<Items<u32>, NoMemory>
    ensures { IfOk result (λ components. components ≡ components_of x.now measures.now) }
{
    let mut parts = Items::new(alloc);
    for m in measures {
        add_parts(alloc, x, *m, &mut parts)?;
    }
    first_each(alloc, parts.as_slice())
}

// Adds what a measure is put together from. The measures that are still to be put in stand in a list, the next one
// last, each with how many `number`s lead on from it at most.
fn add_parts(alloc: Global, x: &Explore, m: u32, parts: &mut Items<u32>) -> Result<(), NoMemory>
    ensures { OnOk result (parts.new ≡ parts.old ++ parts_of_measure x.now (length x.now.measures) m) }
{
    let mut left = Vec::new(alloc);
    left.push((x.measures.len(), m))?;
    while let Some((most, m)) = left.pop() {
        if most == 0 {
            continue;
        }
        let Some(number) = calculation_of(x, m) else {
            parts.push(m)?;
            continue;
        };
        add_named(alloc, most - 1, number, &mut left)?;
    }
    Ok(())
}

// Adds the measures of a calculation to those that are still to be put in.
fn add_named(
    alloc: Global,
    most: usize,
    number: &NumExpr,
    left: &mut Vec<(usize, u32)>,
) -> Result<(), NoMemory>
    ensures { OnOk result (left.new.items ≡ left.old.items ++ stacked most (measures_in number.now)) }
{
    let named = measures_in(alloc, number)?;
    let named = named.as_slice();
    let mut place = named.len();
    while place > 0 {
        place -= 1;
        left.push((most, named[place]))?;
    }
    Ok(())
}

// The calculation of a `number`; none of any other measure.
fn calculation_of(x: &Explore, m: u32) -> Option<&NumExpr>
    ensures { option_map (λ number. number.now) result ≡ (measure_at x.now m).number }
{
    match x.measures.as_slice().get(m as usize) {
        Some(measure) => measure.number.as_ref(),
        None => None,
    }
}

// The measures that stand in a calculation, from left to right.
fn measures_in(alloc: Global, number: &NumExpr) -> Result<Items<u32>, NoMemory>
    ensures { IfOk result (λ measures. measures ≡ measures_in number.now) }
{
    node_measures(alloc, number.nodes())
}

fn node_measures(alloc: Global, nodes: &[NumNode]) -> Result<Items<u32>, NoMemory>
    ensures { IfOk result (λ measures. measures ≡ flat_map node_measures nodes.now) }
{
    let mut measures = Items::new(alloc);
    for node in nodes {
        add_measure(&mut measures, *node)?;
    }
    Ok(measures)
}

fn add_measure(measures: &mut Items<u32>, node: NumNode) -> Result<(), NoMemory>
    ensures { OnOk result (measures.new ≡ measures.old ++ node_measures node) }
{
    if let NumNode::Measure(m) = node {
        measures.push(m)?;
    }
    Ok(())
}

// Each number once, where it stands first.
fn first_each(alloc: Global, numbers: &[u32]) -> Result<Items<u32>, NoMemory>
    ensures { IfOk result (λ first. first ≡ first_each numbers.now) }
{
    let mut first = Items::new(alloc);
    for n in numbers {
        add_new(&mut first, *n)?;
    }
    Ok(first)
}

// Adds a number behind some, unless it is among them.
fn add_new(first: &mut Items<u32>, n: u32) -> Result<(), NoMemory>
    ensures { OnOk result (first.new ≡ first.old ++ (if has_number n first.old then [] else n ∷ [])) }
{
    if !first.as_slice().contains(&n) {
        first.push(n)?;
    }
    Ok(())
}
