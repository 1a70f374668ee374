ghost use Rattle.std.specs.Prelude.{◌≡◌, IfOk, IfSome};
ghost use Rattle.lk_val.specs.Memory.{UnlessMemory, is_no_memory};
ghost use Rattle.lk_include.specs.Causes.{HasProjectCause, is_outside};
ghost use Rattle.lk_merge.specs.Merging.{fault_of, merged_of};
ghost use Rattle.lk_schema.specs.Users.{users_of};
ghost use Rattle.lk_resolve.specs.Loading.{AfterMerging, AfterSchema, AfterUsers, IsLoadOf, IsLoaded, IsLoadedFromTexts, loaded_as};

use crate::resolving::resolve;
use lk_io::Files;
use lk_merge::{Project, ProjectFault, gather, merge};
use lk_schema::{Users, read_schema, read_users};
use lk_types::{Model, Schema};
use lk_val::ModelFault;
use std::alloc::Global;

/// A project without a fault: its resolved model, and its users with their attributes.
#[derive(Drop)]
pub struct Loaded {
    pub model: Model,
    pub users: Users,
}

/// The model and the users of the project that a folder's files are, or the first fault on the way: of the files and their
/// texts (P2, P1, M6, R, M1), of `schema.csv` (C), of `users.csv` (U), of merging (M4, M5, M2, M3), and of what `resolve`
/// finds. It changes none of the files. (Looker, LookML reference; lookd)
pub fn load<F: Files>(alloc: Global, files: &mut F) -> Result<Loaded, ProjectFault>
    ensures loaded { IfSome (F.told files.old) (λ told. UnlessMemory is_outside result (IsLoadOf told)) }
    ensures read { IfOk result IsLoadedFromTexts }
    ensures same { F.told files.new ≡ F.told files.old }
    ensures cause { HasProjectCause (F.faults files.old) (F.faults files.new) result }
{
    let project = gather(alloc, files)?;
    match load_project(alloc, &project) {
        Ok(loaded) => Ok(loaded),
        Err(ModelFault::Fault(line)) => Err(ProjectFault::Model(line)),
        Err(ModelFault::NoMemory) => Err(ProjectFault::NoMemory),
    }
}

fn load_project(alloc: Global, project: &Project) -> Result<Loaded, ModelFault>
    ensures { UnlessMemory is_no_memory result (IsLoaded project.now) }
{
    let schema = read_schema(alloc, project.schema.as_slice())?;
    load_over(alloc, project, &schema)
}

// Over the tables of this schema.
fn load_over(alloc: Global, project: &Project, schema: &Schema) -> Result<Loaded, ModelFault>
    ensures { UnlessMemory is_no_memory result (AfterUsers project.now schema.now (users_of project.now.users)) }
{
    let users = read_users(alloc, project.users.as_slice())?;
    load_for(alloc, project, schema, users)
}

// For these users.
fn load_for(
    alloc: Global,
    project: &Project,
    schema: &Schema,
    users: Users,
) -> Result<Loaded, ModelFault>
    ensures { UnlessMemory is_no_memory result (AfterMerging schema.now users (merged_of project.now) (fault_of project.now)) }
{
    let merged = merge(alloc, project)?;
    let model = resolve(alloc, &merged, schema)?;
    Ok(Loaded { model, users })
}
