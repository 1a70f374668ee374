ghost use Rattle.lk_scope.specs.Pieces.{IsTested};
ghost use Rattle.lk_scope.specs.Told.{IsTold};
ghost use Rattle.lk_explore_faults.specs.ExploreFaults.{explore_fault};

use crate::conditions::{test_filter_conditions, test_join_conditions};
use crate::filter_faults::{test_filters, test_rollups};
use crate::join_faults::{test_joins, test_own, test_twin};
use lk_field_faults::test_explore_fields;
use lk_objects::{DeclaredDatagroup, DeclaredExplore};
use lk_scope::ScopeFields;
use lk_val::ModelFault;
use std::alloc::Global;

/// Tests an explore, given the fields of its scope: the first fault of its own parameters, of its joins, filters and aggregate
/// tables in declared order, of its fields by name, and then of the kinds and the nodes of its conditions. (Looker, LookML
/// reference: explore; lookd)
pub fn test_explore(
    alloc: Global,
    fields: &ScopeFields,
    datagroups: &[DeclaredDatagroup],
    explore: &DeclaredExplore,
) -> Result<(), ModelFault>
    requires { IsTold fields.now }
    ensures { IsTested result
        (explore_fault fields.now.schema.now fields.now.views.now fields.now.scope.now fields.now.columns.now datagroups.now explore.now) }
{
    let joins = explore.joins.as_slice();
    let filters = explore.filters.as_slice();
    let name = explore.name.as_str();
    test_own(alloc, fields, explore)?;
    test_twin(alloc, explore)?;
    test_joins(alloc, fields, joins)?;
    test_filters(alloc, fields, name, filters)?;
    test_rollups(alloc, fields, datagroups, explore.rollups.as_slice())?;
    test_explore_fields(alloc, fields)?;
    test_join_conditions(alloc, fields, joins)?;
    test_filter_conditions(alloc, fields, name, filters)
}
