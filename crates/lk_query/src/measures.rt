// The joins and the measures of a bound query, and those that count repeated rows.

ghost use Rattle.std.specs.Prelude.{◌≡◌, ◌≤◌, ◌++◌, ◌∷◌, [], Some, IfOk, OnOk, is_some, length, map, option_map, slice_get};
ghost use Rattle.lk_types.specs.declared.model.Pick.TheVariants.{Mea};
ghost use Rattle.lk_semantics.specs.Answers.{components_of, filtered, picked_measures};
ghost use Rattle.lk_semantics.specs.Derived.{query_joins};
ghost use Rattle.lk_semantics.specs.Joins.{part_at};
ghost use Rattle.lk_query.specs.Bindings.{counts_repeated, counts_rows, first_repeated, repeated_name};

use crate::filters::Filters;
use lk_tree::{components, fanned, need_joins};
use lk_types::{Explore, Filter, Measure, Op, Pick};
use lk_val::{Items, NoMemory, Text};
use std::alloc::Global;

/// The joins that a query over these picks and filters needs, ascending.
pub(crate) fn query_joins(
    alloc: Global,
    x: &Explore,
    picks: &[Pick],
    filters: &Filters,
) -> Result<Items<u32>, NoMemory>
    ensures { IfOk result (λ joins. joins
        ≡ query_joins x.now picks.now filters.now.rows filters.now.access filters.now.having) }
{
    let picks = with_filtered(alloc, picks, filters.having.as_slice())?;
    let fields = filtered_fields(alloc, filters)?;
    need_joins(alloc, x, picks.as_slice(), fields.as_slice())
}

// The picks, and the measures that are filtered on as picks.
fn with_filtered(
    alloc: Global,
    picks: &[Pick],
    having: &[(u32, Filter)],
) -> Result<Items<Pick>, NoMemory>
    ensures { IfOk result (λ all. all ≡ picks.now ++ map Mea (filtered having.now)) }
{
    let mut all = Items::from_vec(Vec::from_slice(alloc, picks)?);
    for filter in having {
        all.push(Pick::Mea(filter.0))?;
    }
    Ok(all)
}

fn filtered_fields(alloc: Global, filters: &Filters) -> Result<Items<u32>, NoMemory>
    ensures { IfOk result (λ fields. fields
        ≡ filtered filters.now.rows ++ filtered filters.now.access) }
{
    let mut fields = Items::new(alloc);
    add_filtered(&mut fields, filters.rows.as_slice())?;
    add_filtered(&mut fields, filters.access.as_slice())?;
    Ok(fields)
}

fn add_filtered(numbers: &mut Items<u32>, filters: &[(u32, Filter)]) -> Result<(), NoMemory>
    ensures { OnOk result (numbers.new ≡ numbers.old ++ filtered filters.now) }
{
    for filter in filters {
        numbers.push(filter.0)?;
    }
    Ok(())
}

/// The measures of a query, each once: those that are picked and then those that are filtered on, and for a `number` those
/// that it is put together from. (Looker, LookML reference: type number)
pub(crate) fn query_measures(
    alloc: Global,
    x: &Explore,
    picks: &[Pick],
    having: &[(u32, Filter)],
) -> Result<Items<u32>, NoMemory>
    ensures { IfOk result (λ measures. measures
        ≡ components_of x.now (picked_measures picks.now ++ filtered having.now)) }
{
    let mut measures = picked_measures(alloc, picks)?;
    add_filtered(&mut measures, having)?;
    components(alloc, x, measures.as_slice())
}

fn picked_measures(alloc: Global, picks: &[Pick]) -> Result<Items<u32>, NoMemory>
    ensures { IfOk result (λ measures. measures ≡ picked_measures picks.now) }
{
    let mut measures = Items::new(alloc);
    for pick in picks {
        add_measure(&mut measures, *pick)?;
    }
    Ok(measures)
}

fn add_measure(measures: &mut Items<u32>, pick: Pick) -> Result<(), NoMemory>
    ensures { OnOk result (measures.new ≡ measures.old ++ picked_measures (pick ∷ [])) }
{
    if let Pick::Mea(m) = pick {
        measures.push(m)?;
    }
    Ok(())
}

/// The name of the first of some measures that counts rows of a view that has no primary key and that the joins can
/// repeat. It takes no memory. (Looker, LookML reference: primary_key)
pub(crate) fn first_repeated<'a>(
    x: &'a Explore,
    joins: &[u32],
    measures: &[u32],
) -> Option<&'a Text>
    requires few { length x.now.joins ≤ 31 }
    ensures { option_map (λ name. name.now) result ≡ first_repeated x.now joins.now measures.now }
{
    for m in measures {
        if let Some(name) = repeated_name(x, joins, *m) {
            return Some(name);
        }
    }
    None
}

fn repeated_name<'a>(x: &'a Explore, joins: &[u32], m: u32) -> Option<&'a Text>
    requires few { length x.now.joins ≤ 31 }
    ensures { option_map (λ name. name.now) result
        ≡ repeated_name x.now joins.now (slice_get x.now.measures m) }
{
    match x.measures.as_slice().get(m as usize) {
        Some(measure) => name_if_repeated(x, joins, measure),
        None => None,
    }
}

fn name_if_repeated<'a>(x: &Explore, joins: &[u32], measure: &'a Measure) -> Option<&'a Text>
    requires few { length x.now.joins ≤ 31 }
    ensures { option_map (λ name. name.now) result
        ≡ repeated_name x.now joins.now (Some measure.now) }
{
    if counts_repeated(x, joins, measure) {
        Some(&measure.name)
    } else {
        None
    }
}

fn counts_repeated(x: &Explore, joins: &[u32], measure: &Measure) -> bool
    requires few { length x.now.joins ≤ 31 }
    ensures { result ≡ counts_repeated x.now joins.now measure.now }
{
    counts_rows(measure.op) && !has_key(x, measure.part) && fanned(x, joins, measure.part)
}

fn counts_rows(op: Op) -> bool
    ensures { result ≡ counts_rows op }
{
    match op {
        Op::Count | Op::Sum | Op::Average => true,
        Op::CountDistinct
        | Op::Min
        | Op::Max
        | Op::SumDistinct
        | Op::AverageDistinct
        | Op::Number => false,
    }
}

fn has_key(x: &Explore, part: u32) -> bool
    ensures { result ≡ is_some (part_at x.now part).key }
{
    match x.parts.as_slice().get(part as usize) {
        Some(view) => view.key.is_some(),
        None => false,
    }
}
