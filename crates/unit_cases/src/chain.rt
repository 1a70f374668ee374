use crate::fault::CaseFault;
use lk_tree::components;
use lk_types::{Explore, Kind, Measure, NumExpr, NumNode, Op};
use lk_val::{Items, Text};
use std::alloc::Global;

/// Adds what the last of a chain of so many `number`s is put together from. Each is over the measure before it, and the
/// first over one that counts.
pub fn add_chain(alloc: Global, length: &str, line: &mut String) -> Result<(), CaseFault> {
    let length = length.parse::<u32>().or(Err(CaseFault::NoSuchCase))?;
    let mut x = explore(alloc);
    let added = match add_measures(alloc, length, &mut x.measures) {
        Ok(()) => add_parts(alloc, &x, length, line),
        Err(fault) => Err(fault),
    };
    // By name, since that is one call where the end of a block is one for each field.
    drop(x);
    added
}

// An explore without anything.
fn explore(alloc: Global) -> Explore {
    Explore {
        name: Text::new(alloc),
        parts: Items::new(alloc),
        joins: Items::new(alloc),
        fields: Items::new(alloc),
        measures: Items::new(alloc),
        always_join: Items::new(alloc),
        always: Items::new(alloc),
        always_where: None,
        access: Items::new(alloc),
        rollups: Items::new(alloc),
    }
}

fn add_measures(
    alloc: Global,
    length: u32,
    measures: &mut Items<Measure>,
) -> Result<(), CaseFault> {
    measures.push(measure(alloc, Op::Count, None))?;
    for before in 0..length {
        let number = NumExpr::from_nodes(only(alloc, NumNode::Measure(before))?);
        measures.push(measure(alloc, Op::Number, number))?;
    }
    Ok(())
}

fn only(alloc: Global, node: NumNode) -> Result<Items<NumNode>, CaseFault> {
    let mut nodes = Items::new(alloc);
    nodes.push(node)?;
    Ok(nodes)
}

fn measure(alloc: Global, op: Op, number: Option<NumExpr>) -> Measure {
    Measure {
        name: Text::new(alloc),
        part: 0,
        op,
        kind: Kind::Number,
        value: None,
        key: None,
        filters: Items::new(alloc),
        number,
    }
}

fn add_parts(alloc: Global, x: &Explore, measure: u32, line: &mut String) -> Result<(), CaseFault> {
    let parts = components(alloc, x, &[measure])?;
    match parts.as_slice() {
        [0] => Ok(line.push_str("the count alone")?),
        _ => Ok(line.push_str("other measures")?),
    }
}
