ghost use Rattle.std.specs.Prelude.{◌≡◌, IfOk, map};
ghost use Rattle.lk_filter.specs.PlacedModel.{placed_field_filter, placed_measure, placed_rollup, placed_explore, placed_derived, placed_model};

use crate::placing::place;
use lk_types::{
    Derived, Explore, Expr, Field, Filter, Join, Measure, Model, NumExpr, Part, Rollup,
};
use lk_val::{Copied, Items, NoMemory, Text};
use std::alloc::Global;

/// The model at a moment: each filter of its explores, measures, aggregate tables and derived tables as `place`
/// gives it, and everything else as it was. `now` counts seconds from 1970-01-01 00:00:00 UTC. (lookd)
pub fn place_model(alloc: Global, m: &Model, now: i64) -> Result<Model, NoMemory>
    ensures { IfOk result (λ made. made ≡ placed_model now m.now) }
{
    Ok(Model {
        schema: m.schema.copied(alloc)?,
        explores: place_all(alloc, &m.explores, now)?,
        derived: place_all(alloc, &m.derived, now)?,
        datagroups: m.datagroups.copy(alloc)?,
    })
}

// What has filters.
trait Placed {
    ghost use Rattle.std.specs.Prelude.{ℤ};

    ghost at_moment: { ℤ → Self → Self };

    // A copy with its filters placed.
    fn placed(&self, alloc: Global, now: i64) -> Result<Self, NoMemory>
        ensures { IfOk result (λ made. made ≡ at_moment now self.now) };
}

fn place_all<T: Placed + Drop>(
    alloc: Global,
    items: &Items<T>,
    now: i64,
) -> Result<Items<T>, NoMemory>
    ensures { IfOk result (λ made. made ≡ map (T.at_moment now) items.now) }
{
    let mut made = Items::new(alloc);
    for item in items.as_slice() {
        made.push(item.placed(alloc, now)?)?;
    }
    Ok(made)
}

// A field's number and its filter.
impl Placed for (u32, Filter) {
    ghost at_moment = { placed_field_filter };

    fn placed(&self, alloc: Global, now: i64) -> Result<(u32, Filter), NoMemory> {
        Ok((self.0, place(alloc, &self.1, now)?))
    }
}

impl Placed for Explore {
    ghost at_moment = { placed_explore };

    fn placed(&self, alloc: Global, now: i64) -> Result<Explore, NoMemory> {
        let name = self.name.copy(alloc)?;
        let views = copied_views(alloc, self)?;
        let limits = placed_limits(alloc, self, now)?;
        let rollups = place_all(alloc, &self.rollups, now)?;
        let fields = placed_fields(alloc, self, now)?;
        Ok(Explore {
            name,
            parts: views.parts,
            joins: views.joins,
            fields: fields.fields,
            measures: fields.measures,
            always_join: views.always_join,
            always: limits.always,
            always_where: limits.always_where,
            access: limits.access,
            rollups,
        })
    }
}

// The views of an explore and its joins.
#[derive(Drop)]
struct ViewParts {
    parts: Items<Part>,
    joins: Items<Join>,
    always_join: Items<u32>,
}

fn copied_views(alloc: Global, x: &Explore) -> Result<ViewParts, NoMemory>
    ensures parts { IfOk result (λ views. views.parts ≡ x.now.parts) }
    ensures joins { IfOk result (λ views. views.joins ≡ x.now.joins) }
    ensures always { IfOk result (λ views. views.always_join ≡ x.now.always_join) }
{
    let always_join = x.always_join.copy_plain(alloc)?;
    let parts = x.parts.copy(alloc)?;
    let joins = x.joins.copy(alloc)?;
    Ok(ViewParts {
        parts,
        joins,
        always_join,
    })
}

// What limits the rows of an explore.
#[derive(Drop)]
struct RowLimits {
    always: Items<(u32, Filter)>,
    always_where: Option<Expr>,
    access: Items<(u32, Text)>,
}

fn placed_limits(alloc: Global, x: &Explore, now: i64) -> Result<RowLimits, NoMemory>
    ensures always { IfOk result (λ limits. limits.always ≡ map (placed_field_filter now) x.now.always) }
    ensures condition { IfOk result (λ limits. limits.always_where ≡ x.now.always_where) }
    ensures access { IfOk result (λ limits. limits.access ≡ x.now.access) }
{
    let access = x.access.copy(alloc)?;
    let always_where = Copied::copied(&x.always_where, alloc)?;
    let always = place_all(alloc, &x.always, now)?;
    Ok(RowLimits {
        always,
        always_where,
        access,
    })
}

// The dimensions and the measures of an explore.
#[derive(Drop)]
struct FieldLists {
    fields: Items<Field>,
    measures: Items<Measure>,
}

fn placed_fields(alloc: Global, x: &Explore, now: i64) -> Result<FieldLists, NoMemory>
    ensures fields { IfOk result (λ made. made.fields ≡ x.now.fields) }
    ensures measures { IfOk result (λ made. made.measures ≡ map (placed_measure now) x.now.measures) }
{
    let fields = x.fields.copy(alloc)?;
    let measures = place_all(alloc, &x.measures, now)?;
    Ok(FieldLists { fields, measures })
}

impl Placed for Measure {
    ghost at_moment = { placed_measure };

    fn placed(&self, alloc: Global, now: i64) -> Result<Measure, NoMemory> {
        let name = self.name.copy(alloc)?;
        let filters = place_all(alloc, &self.filters, now)?;
        let terms = copied_terms(alloc, self)?;
        Ok(Measure {
            name,
            part: self.part,
            op: self.op,
            kind: self.kind,
            value: terms.value,
            key: terms.key,
            filters,
            number: terms.number,
        })
    }
}

// The expressions that a measure computes with.
#[derive(Drop)]
struct Terms {
    value: Option<Expr>,
    key: Option<Expr>,
    number: Option<NumExpr>,
}

fn copied_terms(alloc: Global, measure: &Measure) -> Result<Terms, NoMemory>
    ensures value { IfOk result (λ terms. terms.value ≡ measure.now.value) }
    ensures key { IfOk result (λ terms. terms.key ≡ measure.now.key) }
    ensures number { IfOk result (λ terms. terms.number ≡ measure.now.number) }
{
    let number = Copied::copied(&measure.number, alloc)?;
    let value = Copied::copied(&measure.value, alloc)?;
    let key = Copied::copied(&measure.key, alloc)?;
    Ok(Terms { value, key, number })
}

impl Placed for Rollup {
    ghost at_moment = { placed_rollup };

    fn placed(&self, alloc: Global, now: i64) -> Result<Rollup, NoMemory> {
        Ok(Rollup {
            name: self.name.copy(alloc)?,
            dims: self.dims.copy_plain(alloc)?,
            measures: self.measures.copy_plain(alloc)?,
            filters: place_all(alloc, &self.filters, now)?,
            datagroup: self.datagroup,
        })
    }
}

impl Placed for Derived {
    ghost at_moment = { placed_derived };

    fn placed(&self, alloc: Global, now: i64) -> Result<Derived, NoMemory> {
        Ok(Derived {
            name: self.name.copy(alloc)?,
            explore: self.explore,
            columns: self.columns.copy(alloc)?,
            filters: place_all(alloc, &self.filters, now)?,
            datagroup: self.datagroup,
        })
    }
}
