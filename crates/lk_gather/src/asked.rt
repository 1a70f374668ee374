ghost use Rattle.std.specs.Prelude.{◌≡◌, IfOk, map, true};
ghost use Rattle.std.specs.List.{list_all};
ghost use Rattle.lk_types.specs.Dates.{are_literals_dated, is_row_dated};
ghost use Rattle.lk_semantics.specs.Answers.{dims_of, key_value, measure_at, query_components};
ghost use Rattle.lk_semantics.specs.Rows.{tuple_of};
ghost use Rattle.lk_filter.specs.PlacedModel.{placed_explore};
ghost use Rattle.lk_gather.specs.Asked.{GivesCells, GivesGroups, does_pass};
ghost use Rattle.lk_gather.specs.Dims.{is_fine_dim};
ghost use Rattle.lk_gather.specs.Measures.{is_fine_explore, is_fine_taken};

use crate::dims::{Dim, dim_values, dims_at};
use crate::measures::{Taken, cells_of, taken_by};
use lk_eval::eval_over;
use lk_exec::LentRow;
use lk_types::{Explore, KeyValue, Pick, Plan};
use lk_val::{Items, NoMemory, Value};
use std::alloc::Global;

// A query, ready to be computed on its visible rows: its dimensions, and its components at the query's moment.
#[derive(Drop)]
pub(crate) struct Asked<'a> {
    pub(crate) explore: &'a Explore,
    pub(crate) plan: &'a Plan,
    pub(crate) moment: i64,
    dims: Items<Dim<'a>>,
    taken: Items<Taken<'a>>,
    ghost fine_dims: { list_all is_fine_dim dims ≡ true },
    ghost gives_groups: { GivesGroups explore.now plan.now dims },
    ghost fine_taken: { list_all is_fine_taken taken ≡ true },
    ghost gives_cells: { GivesCells (placed_explore moment explore.now) plan.now taken },
    ghost dated: { are_literals_dated plan.now.passing ≡ true },
}

impl<'a> Asked<'a> {
    #[tactic(auto, using(crate::proofs::MeasureLaws::fields_fine, crate::proofs::MeasureLaws::all_fine, crate::proofs::MeasureLaws::taken_values, crate::proofs::DimLaws::dims_fine, crate::proofs::DimLaws::dims_values))]
    pub(crate) fn new(
        alloc: Global,
        explore: &'a Explore,
        plan: &'a Plan,
        components: &[u32],
        moment: i64,
    ) -> Result<Asked<'a>, NoMemory>
        requires explore { is_fine_explore explore.now ≡ true }
        requires dated { are_literals_dated plan.now.passing ≡ true }
        requires components { components.now
            ≡ query_components (placed_explore moment explore.now) plan.now.bound }
        ensures explore { IfOk result (λ asked. asked.explore.now ≡ explore.now) }
        ensures plan { IfOk result (λ asked. asked.plan.now ≡ plan.now) }
        ensures moment { IfOk result (λ asked. asked.moment ≡ moment) }
    {
        let numbers = dims_of(alloc, plan.bound.picks.as_slice())?;
        Ok(Asked {
            explore,
            plan,
            moment,
            dims: dims_at(alloc, explore, numbers.as_slice())?,
            taken: taken_by(alloc, explore, components, moment)?,
        })
    }

    /// Whether a visible row passes.
    pub(crate) fn passes(&self, alloc: Global, row: &LentRow<'_>) -> Result<bool, NoMemory>
        requires { is_row_dated row.now ≡ true }
        ensures { IfOk result (λ passes. passes ≡ does_pass self.now.plan.now row.now) }
    {
        let value = eval_over(alloc, &self.plan.passing, row)?;
        Ok(matches!(value, Value::Truth(true)))
    }

    /// The group of a row.
    pub(crate) fn group(&self, alloc: Global, row: &LentRow<'_>) -> Result<Items<Value>, NoMemory>
        requires { is_row_dated row.now ≡ true }
        ensures { IfOk result (λ group. group
            ≡ tuple_of self.now.explore.now (dims_of self.now.plan.now.bound.picks) row.now) }
    {
        dim_values(alloc, self.dims.as_slice(), row)
    }

    /// What a row gives to the components.
    pub(crate) fn cells(
        &self,
        alloc: Global,
        row: &LentRow<'_>,
    ) -> Result<Items<KeyValue>, NoMemory>
        requires { is_row_dated row.now ≡ true }
        ensures { IfOk result (λ cells. cells
            ≡ map (λ m. key_value (placed_explore self.now.moment self.now.explore.now)
            (measure_at (placed_explore self.now.moment self.now.explore.now) m) row.now)
            (query_components (placed_explore self.now.moment self.now.explore.now) self.now.plan.now.bound)) }
    {
        cells_of(alloc, self.taken.as_slice(), row)
    }
}

/// The dimensions among some picks, in order.
pub(crate) fn dims_of(alloc: Global, picks: &[Pick]) -> Result<Items<u32>, NoMemory>
    ensures { IfOk result (λ dims. dims ≡ dims_of picks.now) }
{
    let mut dims = Items::new(alloc);
    for pick in picks {
        if let Pick::Dim(field) = pick {
            dims.push(*field)?;
        }
    }
    Ok(dims)
}
