ghost use Rattle.std.specs.Prelude.{◌≡◌, [], codes, length, Err, IfOk, IfSome, IsErrOf};
ghost use Rattle.lk_val.specs.Memory.{IsUnlessMemory};
ghost use Rattle.lk_io.specs.Folder.{paths_of};
ghost use Rattle.lk_include.specs.Causes.{HasProjectCause, IsOutside, is_outside};
ghost use Rattle.lk_include.specs.Gathering.{file_line, table_at};
ghost use Rattle.lk_include.specs.declared.project.ProjectFault.TheVariants as project;
ghost use Rattle.lk_seed.specs.Seeds.{data_path, seeds_of};

use crate::fault::{data_path, line};
use lk_include::ProjectFault;
use lk_io::{FileFault, Files};
use lk_types::{Schema, TableDef};
use lk_val::{Bytes, Items, Text, is_among};
use std::alloc::Global;

/// The body of each table's data file, by table, none where the folder lists no such file; or P1 for the first of them, in
/// the order of the tables, that has over 67,108,864 bytes. It changes none of the files. (lookd)
pub fn read_seeds<F: Files>(
    alloc: Global,
    files: &mut F,
    schema: &Schema,
) -> Result<Items<Option<Bytes>>, ProjectFault>
    ensures loaded { IfSome (F.told files.old) (λ told.
        IsUnlessMemory is_outside result (seeds_of schema.now.tables told)) }
    ensures count { IfOk result (λ seeds. length seeds ≡ length schema.now.tables) }
    ensures same { F.told files.new ≡ F.told files.old }
    ensures cause { HasProjectCause (F.faults files.old) (F.faults files.new) result }
{
    let paths = list_paths(alloc, files)?;
    read_each(alloc, files, paths.as_slice(), schema.tables.as_slice())
}

fn list_paths<F: Files>(alloc: Global, files: &mut F) -> Result<Items<Text>, ProjectFault>
    ensures all { IfOk result (λ paths. IfSome (F.told files.old) (λ told. paths ≡ paths_of told)) }
    ensures fault { IsOutside result }
    ensures same { F.told files.new ≡ F.told files.old }
    ensures cause { HasProjectCause (F.faults files.old) (F.faults files.new) result }
{
    match files.list(alloc) {
        Ok(paths) => Ok(paths),
        Err(FileFault::Failed) => Err(ProjectFault::Failed),
        Err(FileFault::NoMemory) => Err(ProjectFault::NoMemory),
        Err(FileFault::TooBig) => unreachable!(),
    }
}

// The seeds of some tables, given the paths of the folder.
fn read_each<F: Files>(
    alloc: Global,
    files: &mut F,
    paths: &[Text],
    defs: &[TableDef],
) -> Result<Items<Option<Bytes>>, ProjectFault>
    requires { IfSome (F.told files.old) (λ told. paths.now ≡ paths_of told) }
    ensures seeds { IfSome (F.told files.old) (λ told. IsUnlessMemory is_outside result (seeds_of defs.now told)) }
    ensures count { IfOk result (λ seeds. length seeds ≡ length defs.now) }
    ensures same { F.told files.new ≡ F.told files.old }
    ensures cause { HasProjectCause (F.faults files.old) (F.faults files.new) result }
{
    let mut seeds = Items::new(alloc);
    for def in defs {
        match read_seed(alloc, files, paths, &def.name) {
            Ok(seed) => seeds.push(seed)?,
            Err(fault) => return Err(fault),
        }
    }
    Ok(seeds)
}

// The seed of the table of a name.
fn read_seed<F: Files>(
    alloc: Global,
    files: &mut F,
    paths: &[Text],
    name: &Text,
) -> Result<Option<Bytes>, ProjectFault>
    requires { IfSome (F.told files.old) (λ told. paths.now ≡ paths_of told) }
    ensures seed { IfSome (F.told files.old) (λ told.
        IsUnlessMemory is_outside result (table_at told (data_path name.now))) }
    ensures same { F.told files.new ≡ F.told files.old }
    ensures cause { HasProjectCause (F.faults files.old) (F.faults files.new) result }
{
    let path = data_path(alloc, name)?;
    if !is_among(&path, paths) {
        return Ok(None);
    }
    match files.read(alloc, &path) {
        Ok(body) => Ok(Some(body)),
        Err(FileFault::TooBig) => too_big(alloc, path),
        Err(FileFault::Failed) => Err(ProjectFault::Failed),
        Err(FileFault::NoMemory) => Err(ProjectFault::NoMemory),
    }
}

fn too_big(alloc: Global, path: Text) -> Result<Option<Bytes>, ProjectFault>
    ensures fault { IsUnlessMemory is_outside result (Err (project.Model (file_line (codes "P1") path 0 []))) }
    ensures never { IsErrOf result ProjectFault.Failed → ⊥ }
{
    Err(ProjectFault::Model(line(alloc, "P1", path, 0, Text::new(alloc))?))
}
