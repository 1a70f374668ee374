ghost use Rattle.std.specs.Prelude.{◌≡◌, ◌<◌, ◌^◌, IfOk, IfSome, length, filter};
ghost use Rattle.lk_val.specs.Memory.{IsUnlessMemory};
ghost use Rattle.lk_io.specs.Folder.{paths_of, body_of};
ghost use Rattle.lk_include.specs.Causes.{HasProjectCause, IsOutside, is_outside};
ghost use Rattle.lk_include.specs.Following.{IsListing};
ghost use Rattle.lk_include.specs.Gathering.{sized};
ghost use Rattle.lk_include.specs.Patterns.{is_lookml, is_root};

use crate::faults::line;
use crate::paths::{is_lookml, is_root};
use crate::project::ProjectFault;
use lk_io::{FileFault, Files};
use lk_val::{Bytes, Items, NoMemory, Text, is_among};
use std::alloc::Global;

/// The paths of a folder, and those of them that are LookML files.
#[derive(Drop)]
pub struct Listing {
    pub paths: Items<Text>,
    pub lookml: Items<Text>,
}

/// The listing of a folder.
pub fn list<F: Files>(alloc: Global, files: &mut F) -> Result<Listing, ProjectFault>
    ensures all { IfOk result (λ listing. IfSome (F.told files.old) (IsListing listing)) }
    ensures fault { IsOutside result }
    ensures same { F.told files.new ≡ F.told files.old }
    ensures cause { HasProjectCause (F.faults files.old) (F.faults files.new) result }
{
    let paths = list_paths(alloc, files)?;
    let lookml = lookml_of(alloc, paths.as_slice())?;
    Ok(Listing { paths, lookml })
}

fn list_paths<F: Files>(alloc: Global, files: &mut F) -> Result<Items<Text>, ProjectFault>
    ensures all { IfOk result (λ paths. IfSome (F.told files.old) (λ told. paths ≡ paths_of told)) }
    ensures fault { IsOutside result }
    ensures same { F.told files.new ≡ F.told files.old }
    ensures cause { HasProjectCause (F.faults files.old) (F.faults files.new) result }
{
    match files.list(alloc) {
        Ok(paths) => Ok(paths),
        Err(FileFault::Failed) => Err(ProjectFault::Failed),
        Err(FileFault::NoMemory) => Err(ProjectFault::NoMemory),
        Err(FileFault::TooBig) => unreachable!(),
    }
}

fn lookml_of(alloc: Global, paths: &[Text]) -> Result<Items<Text>, NoMemory>
    ensures { IfOk result (λ found. found ≡ filter is_lookml paths.now) }
{
    let mut found = Items::new(alloc);
    for path in paths {
        if is_lookml(path) {
            found.push(path.copy(alloc)?)?;
        }
    }
    Ok(found)
}

/// The paths of model files, in order.
pub fn roots_of(alloc: Global, paths: &[Text]) -> Result<Items<Text>, NoMemory>
    ensures { IfOk result (λ found. found ≡ filter is_root paths.now) }
{
    let mut found = Items::new(alloc);
    for path in paths {
        if is_root(path) {
            found.push(path.copy(alloc)?)?;
        }
    }
    Ok(found)
}

/// The body of a file, if it is listed; P1 where it has over 67,108,864 bytes.
pub fn read_listed<F: Files>(
    alloc: Global,
    files: &mut F,
    listing: &Listing,
    path: &Text,
) -> Result<Option<Bytes>, ProjectFault>
    requires { IfSome (F.told files.old) (IsListing listing.now) }
    ensures body { IfSome (F.told files.old) (λ told.
        IsUnlessMemory is_outside result (sized path.now (body_of path.now told))) }
    ensures small { IfOk result (λ body. IfSome body (λ bytes. length bytes < 2 ^ 32)) }
    ensures same { F.told files.new ≡ F.told files.old }
    ensures cause { HasProjectCause (F.faults files.old) (F.faults files.new) result }
{
    if !is_among(path, listing.paths.as_slice()) {
        return Ok(None);
    }
    match files.read(alloc, path) {
        Ok(body) => Ok(Some(body)),
        Err(FileFault::TooBig) => Err(ProjectFault::Model(line(alloc, "P1", path, 0, "")?)),
        Err(FileFault::Failed) => Err(ProjectFault::Failed),
        Err(FileFault::NoMemory) => Err(ProjectFault::NoMemory),
    }
}
