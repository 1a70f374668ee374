ghost use Rattle.std.specs.Prelude.{◌≡◌, IfOk};
ghost use Rattle.lk_val.specs.Memory.{UnlessMemory, is_no_memory};
ghost use Rattle.lk_scope.specs.Pieces.{IsTested};
ghost use Rattle.lk_model.specs.Models.{model_of};
ghost use Rattle.lk_model.specs.ViewKinds.{kinds_of};
ghost use Rattle.lk_resolve.specs.Resolving.{HasModel, IsModelOf, later_fault};

use crate::objects::read_objects;
use lk_merge::Merged;
use lk_model::{ViewKinds, model_of, test_counts, test_objects};
use lk_objects::Declared;
use lk_scope::copy_line;
use lk_stored::test_stored;
use lk_types::{Model, Schema};
use lk_val::{FaultLine, ModelFault, NoMemory};
use std::alloc::Global;

/// The model that the effective objects of a project give over the tables of its schema, or the first fault: of the files'
/// own parameters, of counts (N15), of the views, the datagroups and the explores by name, and of what the whole model
/// shows (N7 over derived tables, N10, N12). (Looker, LookML reference; lookd)
pub fn resolve(alloc: Global, merged: &Merged, schema: &Schema) -> Result<Model, ModelFault>
    ensures { UnlessMemory is_no_memory result (HasModel schema.now merged.now) }
{
    let declared = read_objects(alloc, schema, merged)?;
    resolve_objects(alloc, schema, merged, &declared)
}

fn resolve_objects(
    alloc: Global,
    schema: &Schema,
    merged: &Merged,
    declared: &Declared,
) -> Result<Model, ModelFault>
    ensures { IsModelOf schema.now merged.now declared.now result }
{
    test_stray(alloc, &merged.stray)?;
    test_counts(alloc, merged.files, schema, declared)?;
    let kinds = ViewKinds::of(alloc, schema, declared)?;
    resolve_with(alloc, schema, declared, &kinds)
}

// The first fault of the files' own parameters.
fn test_stray(alloc: Global, stray: &Option<FaultLine>) -> Result<(), ModelFault>
    ensures { IsTested result stray.now }
{
    match stray {
        None => Ok(()),
        Some(line) => Err(ModelFault::Fault(copy_line(alloc, line)?)),
    }
}

// Given the kinds of the columns of the views' rows.
fn resolve_with(
    alloc: Global,
    schema: &Schema,
    declared: &Declared,
    kinds: &ViewKinds,
) -> Result<Model, ModelFault>
    ensures fault { IsTested result (later_fault schema.now declared.now kinds.now) }
    ensures ok { IfOk result (λ model. model ≡ model_of schema.now declared.now kinds.now) }
{
    test_objects(alloc, schema, declared, kinds)?;
    let model = model_of(alloc, schema, declared, kinds)?;
    test_stored(alloc, &model)?;
    Ok(model)
}
