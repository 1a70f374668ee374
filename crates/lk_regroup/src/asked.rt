// How the rows of an aggregate table are regrouped for a query.

ghost use Rattle.std.specs.Prelude.{◌≡◌, IfOk};
ghost use Rattle.lk_regroup.specs.Regroupings.{regrouping_of};

use crate::component::{Component, components_of};
use crate::source::{FieldSource, add_filters, picked_sources};
use lk_lines::query_components;
use lk_tree::components;
use lk_types::{Bound, Explore, Filter, Rollup};
use lk_val::{Items, NoMemory};
use std::alloc::Global;

// What is asked of each row: the query's filters on dimensions, its dimensions, and its components, each with where
// the row has it.
#[derive(Drop)]
pub(crate) struct Regrouping {
    pub(crate) filters: Items<(Option<FieldSource>, Filter)>,
    pub(crate) fields: Items<Option<FieldSource>>,
    pub(crate) components: Items<Component>,
}

impl Regrouping {
    pub(crate) fn new(
        alloc: Global,
        x: &Explore,
        r: &Rollup,
        b: &Bound,
    ) -> Result<Regrouping, NoMemory>
        ensures { IfOk result (λ how. how ≡ regrouping_of x.now r.now b.now) }
    {
        let dims = r.dims.as_slice();
        let mut filters = Items::new(alloc);
        add_filters(alloc, x, dims, b.access.as_slice(), &mut filters)?;
        add_filters(alloc, x, dims, b.rows.as_slice(), &mut filters)?;
        Ok(Regrouping {
            filters,
            fields: picked_sources(alloc, x, dims, b.picks.as_slice())?,
            components: query_parts(alloc, x, r, b)?,
        })
    }
}

// The components of a query among those that an aggregate table keeps.
fn query_parts(
    alloc: Global,
    x: &Explore,
    r: &Rollup,
    b: &Bound,
) -> Result<Items<Component>, NoMemory>
    ensures { IfOk result (λ parts. parts ≡ (regrouping_of x.now r.now b.now).components) }
{
    let kept = components(alloc, x, r.measures.as_slice())?;
    let wanted = query_components(alloc, x, b)?;
    components_of(alloc, x, kept.as_slice(), wanted.as_slice())
}
