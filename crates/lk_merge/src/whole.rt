ghost use Rattle.std.specs.Prelude.{◌≡◌, IfOk};
ghost use Rattle.lk_merge.specs.Declarations.{declarations};
ghost use Rattle.lk_merge.specs.MergeFaults.{merge_fault};
ghost use Rattle.lk_merge.specs.Merging.{IsTested, merged_of, fault_of};

use crate::by_name::Declared;
use crate::cycles::find_cycle;
use crate::declaration::declarations;
use crate::faults::{find_final, find_nowhere, find_twice};
use crate::objects::objects;
use crate::project::Merged;
use crate::strays::stray_of;
use lk_include::Project;
use lk_overlay::Kind;
use lk_val::{FaultLine, ModelFault, NoMemory};
use std::alloc::Global;

/// The effective objects of a project, or its first fault of merging: a name declared twice, a refinement of a final
/// object, an unknown base, a cycle of extensions. (Looker, LookML reference: refinements, extends)
pub fn merge(alloc: Global, project: &Project) -> Result<Merged, ModelFault>
    ensures fault { IsTested result (fault_of project.now) }
    ensures ok { IfOk result (λ merged. merged ≡ merged_of project.now) }
{
    let declarations = declarations(alloc, project.trees.as_slice())?;
    let all = Declared::new(alloc, declarations.as_slice())?;
    if let Some(line) = merge_fault(alloc, &all)? {
        return Err(ModelFault::Fault(line));
    }
    Ok(merged_of(alloc, project, &all)?)
}

fn merge_fault(alloc: Global, all: &Declared<'_>) -> Result<Option<FaultLine>, NoMemory>
    ensures { IfOk result (λ fault. fault ≡ merge_fault all.now.them.now) }
{
    if let Some(fault) = find_twice(alloc, all.as_slice())? {
        return Ok(Some(fault));
    }
    if let Some(fault) = find_final(alloc, all)? {
        return Ok(Some(fault));
    }
    if let Some(fault) = find_nowhere(alloc, all.as_slice())? {
        return Ok(Some(fault));
    }
    if let Some(fault) = find_cycle(alloc, all, Kind::View)? {
        return Ok(Some(fault));
    }
    find_cycle(alloc, all, Kind::Explore)
}

fn merged_of(alloc: Global, project: &Project, all: &Declared<'_>) -> Result<Merged, NoMemory>
    requires { all.now.them.now ≡ declarations project.now.trees }
    ensures { IfOk result (λ merged. merged ≡ merged_of project.now) }
{
    Ok(Merged {
        views: objects(alloc, all, Kind::View)?,
        explores: objects(alloc, all, Kind::Explore)?,
        datagroups: objects(alloc, all, Kind::Datagroup)?,
        files: project.trees.len() as u64,
        stray: stray_of(alloc, project.trees.as_slice())?,
    })
}
