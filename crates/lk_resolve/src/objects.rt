ghost use Rattle.std.specs.Prelude.{◌≡◌, IfOk, map};
ghost use Rattle.lk_resolve.specs.Objects.{AreExplores, AreViews, HasObjects, datagroup_read};

use lk_datagroup::read_datagroup;
use lk_explore::read_explore;
use lk_merge::{Merged, Object};
use lk_objects::{Declared, DeclaredDatagroup, DeclaredExplore, DeclaredView};
use lk_types::Schema;
use lk_val::{Items, NoMemory};
use lk_view::read_view;
use std::alloc::Global;

/// What the effective objects of a project say, given the tables of its schema: views, explores and datagroups, each list by
/// name. (Looker, LookML reference: view, explore, datagroup)
pub fn read_objects(alloc: Global, schema: &Schema, merged: &Merged) -> Result<Declared, NoMemory>
    ensures { IfOk result (HasObjects schema.now merged.now) }
{
    Ok(Declared {
        views: read_views(alloc, schema, merged.views.as_slice())?,
        explores: read_explores(alloc, merged.explores.as_slice())?,
        datagroups: read_datagroups(alloc, schema, merged.datagroups.as_slice())?,
    })
}

fn read_views(
    alloc: Global,
    schema: &Schema,
    objects: &[Object],
) -> Result<Items<DeclaredView>, NoMemory>
    ensures { IfOk result (AreViews schema.now objects.now) }
{
    let mut views = Items::new(alloc);
    for object in objects {
        views.push(read_view(alloc, schema, &object.name, &object.tree)?)?;
    }
    Ok(views)
}

fn read_explores(alloc: Global, objects: &[Object]) -> Result<Items<DeclaredExplore>, NoMemory>
    ensures { IfOk result (AreExplores objects.now) }
{
    let mut explores = Items::new(alloc);
    for object in objects {
        explores.push(read_explore(alloc, &object.name, &object.tree)?)?;
    }
    Ok(explores)
}

fn read_datagroups(
    alloc: Global,
    schema: &Schema,
    objects: &[Object],
) -> Result<Items<DeclaredDatagroup>, NoMemory>
    ensures { IfOk result (λ datagroups. datagroups ≡ map (datagroup_read schema.now) objects.now) }
{
    let mut datagroups = Items::new(alloc);
    for object in objects {
        datagroups.push(read_datagroup(alloc, schema, &object.name, &object.tree)?)?;
    }
    Ok(datagroups)
}
