// What a group of a query has of its components, put together from the rows of an aggregate table.

ghost use Rattle.std.specs.Prelude.{◌≡◌, ◌+◌, ◌+ℤ◌, IfOk, OnOk, map, option_map};
ghost use Rattle.std.specs.Ordering.{is_gt, is_lt};
ghost use Rattle.lk_val.specs.ValueRefs.{value_of_ref};
ghost use Rattle.lk_val.specs.Values.{null_last_cmp, value_cmp};
ghost use Rattle.lk_semantics.specs.Answers.{measure_at};
ghost use Rattle.lk_semantics.specs.Measures.{greater, lesser};
ghost use Rattle.lk_semantics.specs.Rollups.{merged, no_partial};
ghost use Rattle.lk_regroup.specs.ComponentParts.{cell_of, component_of, first_parts, no_parts, or_nothing, part_from, place_from, with_parts};

use lk_agg::cell_of_partial;
use lk_types::{Explore, Op, Partial};
use lk_val::{Cell, Items, NoMemory, Value, ValueRef};
use std::alloc::Global;
use std::cmp::Ordering;

// A component of a query: its place among those that an aggregate table keeps, and its type.
#[derive(Clone, Copy)]
pub(crate) struct Component {
    pub(crate) place: Option<usize>,
    pub(crate) op: Op,
}

// What a group has of a component.
#[derive(Drop)]
pub(crate) struct ComponentParts {
    pub(crate) component: Component,
    pub(crate) parts: Partial,
}

/// The components of a query among those that an aggregate table keeps, in order.
pub(crate) fn components_of(
    alloc: Global,
    x: &Explore,
    kept: &[u32],
    wanted: &[u32],
) -> Result<Items<Component>, NoMemory>
    ensures { IfOk result (λ components. components ≡ map (component_of x.now kept.now) wanted.now) }
{
    let mut components = Items::from_vec(Vec::with_capacity(alloc, wanted.len())?);
    for m in wanted {
        components.push(Component {
            place: place_of(kept, *m),
            op: op_of(x, *m),
        })?;
    }
    Ok(components)
}

// The place at which a measure stands first.
fn place_of(measures: &[u32], m: u32) -> Option<usize>
    ensures { result ≡ place_from m 0 measures.now }
{
    for (place, n) in measures.iter().enumerate() {
        if *n == m {
            return Some(place);
        }
    }
    None
}

// The type of the measure of a number.
fn op_of(x: &Explore, m: u32) -> Op
    ensures { result ≡ (measure_at x.now m).op }
{
    match x.measures.as_slice().get(m as usize) {
        Some(measure) => measure.op,
        None => Op::Count,
    }
}

/// What the first row of a group has of each component.
pub(crate) fn first_parts(
    alloc: Global,
    components: &[Component],
    partials: &[Partial],
) -> Result<Items<ComponentParts>, NoMemory>
    ensures { IfOk result (λ parts. parts ≡ map (first_parts partials.now) components.now) }
{
    let mut parts = Items::from_vec(Vec::with_capacity(alloc, components.len())?);
    for component in components {
        parts.push(ComponentParts {
            component: *component,
            parts: copied(alloc, part_from(partials, component.place))?,
        })?;
    }
    Ok(parts)
}

/// What a group without a row has of each component: nothing.
pub(crate) fn no_parts(
    alloc: Global,
    components: &[Component],
) -> Result<Items<ComponentParts>, NoMemory>
    ensures { IfOk result (λ parts. parts ≡ map no_parts components.now) }
{
    let mut parts = Items::from_vec(Vec::with_capacity(alloc, components.len())?);
    for component in components {
        parts.push(ComponentParts {
            component: *component,
            parts: no_partial(),
        })?;
    }
    Ok(parts)
}

/// What a group has of each component with one more row. It takes no memory but for a text that is less or greater.
pub(crate) fn with_parts(
    alloc: Global,
    has: Items<ComponentParts>,
    partials: &[Partial],
) -> Result<Items<ComponentParts>, NoMemory>
    ensures { IfOk result (λ more. more ≡ map (with_parts partials.now) has) }
{
    let mut all = has.into_vec();
    for i in 0..all.len() {
        all[i].merge(alloc, partials)?;
    }
    Ok(Items::from_vec(all))
}

/// The cells of a group.
pub(crate) fn cells_of(alloc: Global, has: Items<ComponentParts>) -> Result<Items<Cell>, NoMemory>
    ensures { IfOk result (λ cells. cells ≡ map cell_of has) }
{
    let mut cells = Items::from_vec(Vec::with_capacity(alloc, has.len())?);
    for one in has.into_vec() {
        cells.push(cell_of(one))?;
    }
    Ok(cells)
}

fn cell_of(has: ComponentParts) -> Cell
    ensures { result ≡ cell_of has }
{
    let ComponentParts { component, parts } = has;
    cell_of_partial(component.op, parts)
}

impl ComponentParts {
    // Adds what one more row keeps.
    fn merge(&mut self, alloc: Global, partials: &[Partial]) -> Result<(), NoMemory>
        ensures { OnOk result (self.new ≡ with_parts partials.now self.old) }
    {
        match part_from(partials, self.component.place) {
            Some(part) => merge(alloc, &mut self.parts, part),
            None => Ok(()),
        }
    }
}

// What a row keeps at the place of a component.
fn part_from(partials: &[Partial], place: Option<usize>) -> Option<&Partial>
    ensures { or_nothing (option_map (λ part. part.now) result) ≡ part_from partials.now place }
{
    match place {
        Some(place) => partials.get(place),
        None => None,
    }
}

fn copied(alloc: Global, part: Option<&Partial>) -> Result<Partial, NoMemory>
    ensures { IfOk result (λ copied. copied ≡ or_nothing (option_map (λ part. part.now) part.entry)) }
{
    match part {
        Some(part) => Ok(Partial {
            count: part.count,
            sum: part.sum,
            values: part.values,
            least: part.least.copy(alloc)?,
            most: part.most.copy(alloc)?,
            distinct: part.distinct,
        }),
        None => Ok(no_partial()),
    }
}

fn no_partial() -> Partial
    ensures { result ≡ no_partial }
{
    Partial {
        count: 0,
        sum: 0,
        values: 0,
        least: Value::Null,
        most: Value::Null,
        distinct: 0,
    }
}

// Puts the parts of two groups without a common pair together. The number of different values stays that of `into`,
// since numbers of different values can't be added. A count or a sum past its type is want of memory.
fn merge(alloc: Global, into: &mut Partial, from: &Partial) -> Result<(), NoMemory>
    ensures { OnOk result (into.new ≡ merged into.old from.now) }
{
    into.count = add_counts(into.count, from.count)?;
    into.sum = add_sums(into.sum, from.sum)?;
    into.values = add_counts(into.values, from.values)?;
    keep_lesser(alloc, &mut into.least, &from.least)?;
    keep_greater(alloc, &mut into.most, &from.most)
}

fn add_counts(a: u64, b: u64) -> Result<u64, NoMemory>
    ensures { IfOk result (λ sum. sum ≡ a + b) }
{
    a.checked_add(b).ok_or(NoMemory)
}

fn add_sums(a: i128, b: i128) -> Result<i128, NoMemory>
    ensures { IfOk result (λ sum. sum ≡ a +ℤ b) }
{
    a.checked_add(b).ok_or(NoMemory)
}

#[tactic(auto, using(crate::proofs::ComponentLaws::lesser_by))]
fn keep_lesser(alloc: Global, value: &mut Value, other: &Value) -> Result<(), NoMemory>
    ensures { OnOk result (value.new ≡ lesser value.old other.now) }
{
    if is_lesser(other.as_ref(), value.as_ref()) {
        *value = other.copy(alloc)?;
    }
    Ok(())
}

#[tactic(auto, using(crate::proofs::ComponentLaws::greater_by))]
fn keep_greater(alloc: Global, value: &mut Value, other: &Value) -> Result<(), NoMemory>
    ensures { OnOk result (value.new ≡ greater value.old other.now) }
{
    if is_greater(other.as_ref(), value.as_ref()) {
        *value = other.copy(alloc)?;
    }
    Ok(())
}

// Whether the first value is the lesser one, null being neither.
fn is_lesser(a: ValueRef<'_>, b: ValueRef<'_>) -> bool
    ensures { result ≡ is_lt (null_last_cmp (value_of_ref a.entry) (value_of_ref b.entry)) }
{
    if a.is_null() {
        false
    } else {
        b.is_null() || a.cmp(b) == Ordering::Less
    }
}

// Whether the first value is the greater one: null comes first.
fn is_greater(a: ValueRef<'_>, b: ValueRef<'_>) -> bool
    ensures { result ≡ is_gt (value_cmp (value_of_ref a.entry) (value_of_ref b.entry)) }
{
    a.cmp(b) == Ordering::Greater
}
