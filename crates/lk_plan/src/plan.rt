ghost use Rattle.std.specs.Prelude.{◌≡◌, ◌+◌, ◌≤◌, IfOk, length, map};
ghost use Rattle.lk_semantics.specs.Derived.{explore_at};
ghost use Rattle.lk_semantics.specs.Joins.{is_fanned, numbers_below};
ghost use Rattle.lk_semantics.specs.Resolved.{IsInModel, IsResolved};
ghost use Rattle.lk_plan.specs.Conditions.{passing_condition, visible_condition};

use crate::conditions::{passing_condition, visible_condition};
use lk_tree::fanned;
use lk_types::{Bound, Explore, Filter, Model, Pick, Plan, Sort};
use lk_val::{Items, NoMemory};
use std::alloc::Global;

/// The plan of a bound query of a resolved model: the condition of the rows that its caller may see, that of the rows
/// among them that it counts, and for each view of its explore whether a join can repeat the view's rows. An access
/// filter or a filter on a dimension that passes all has no condition. (Looker, LookML reference: access_filter,
/// sql_always_where; Looker, filter expressions)
pub fn compile(alloc: Global, m: &Model, b: &Bound) -> Result<Plan, NoMemory>
    requires model { IsResolved m.now }
    requires bound { IsInModel m.now b.now }
    ensures bound { IfOk result (λ p. p.bound ≡ b.now) }
    ensures visible { IfOk result (λ p. p.visible ≡ visible_condition (explore_at m.now b.now.explore) b.now) }
    ensures passing { IfOk result (λ p. p.passing ≡ passing_condition (explore_at m.now b.now.explore) b.now) }
    ensures fanned { IfOk result (λ p. p.fanned
        ≡ map (is_fanned (explore_at m.now b.now.explore) b.now.joins) (numbers_below (length (explore_at m.now b.now.explore).parts))) }
{
    let x = &m.explores.as_slice()[b.explore as usize];
    let fanned = fanned_views(alloc, x, b.joins.as_slice())?;
    let visible = visible_condition(alloc, x, b)?;
    let passing = passing_condition(alloc, x, b)?;
    Ok(Plan {
        bound: copy_of(alloc, b)?,
        visible,
        passing,
        fanned,
    })
}

// Another bound query that is equal.
fn copy_of(alloc: Global, b: &Bound) -> Result<Bound, NoMemory>
    ensures { IfOk result (λ made. made ≡ b.now) }
{
    let filters = filters_of(alloc, b)?;
    let fields = fields_of(alloc, b)?;
    Ok(Bound {
        explore: b.explore,
        picks: fields.picks,
        joins: fields.joins,
        access: filters.access,
        rows: filters.rows,
        having: filters.having,
        sorts: fields.sorts,
        limit: b.limit,
        fresh: b.fresh,
        csv: b.csv,
    })
}

// The filters of a bound query.
#[derive(Drop)]
struct Filters {
    access: Items<(u32, Filter)>,
    rows: Items<(u32, Filter)>,
    having: Items<(u32, Filter)>,
}

fn filters_of(alloc: Global, b: &Bound) -> Result<Filters, NoMemory>
    ensures { IfOk result (λ made. made ≡ record { access = b.now.access; rows = b.now.rows; having = b.now.having }) }
{
    Ok(Filters {
        access: b.access.copy(alloc)?,
        rows: b.rows.copy(alloc)?,
        having: b.having.copy(alloc)?,
    })
}

// What a bound query picks, joins and sorts by.
#[derive(Drop)]
struct Fields {
    picks: Items<Pick>,
    joins: Items<u32>,
    sorts: Items<Sort>,
}

fn fields_of(alloc: Global, b: &Bound) -> Result<Fields, NoMemory>
    ensures { IfOk result (λ made. made ≡ record { picks = b.now.picks; joins = b.now.joins; sorts = b.now.sorts }) }
{
    Ok(Fields {
        picks: b.picks.copy_plain(alloc)?,
        joins: b.joins.copy_plain(alloc)?,
        sorts: b.sorts.copy_plain(alloc)?,
    })
}

// For each view of an explore, whether some joins can repeat its rows.
fn fanned_views(alloc: Global, x: &Explore, joins: &[u32]) -> Result<Items<bool>, NoMemory>
    requires few { length x.now.joins ≤ 31 }
    requires parts { length x.now.parts ≡ length x.now.joins + 1 }
    ensures { IfOk result (λ all. all ≡ map (is_fanned x.now joins.now) (numbers_below (length x.now.parts))) }
{
    let mut all = Items::new(alloc);
    for part in 0..x.parts.len() {
        all.push(fanned(x, joins, part as u32))?;
    }
    Ok(all)
}
