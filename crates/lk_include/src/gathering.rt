ghost use Rattle.std.specs.Prelude.{◌≡◌, [], IfOk, IfSome, codes, unwrap_or, filter, not, length};
ghost use Rattle.lk_val.specs.Texts.{is_same_text};
ghost use Rattle.lk_io.specs.Folder.{paths_of};
ghost use Rattle.lk_val.specs.Memory.{IsUnlessMemory};
ghost use Rattle.lk_include.specs.Causes.{HasProjectCause, is_outside};
ghost use Rattle.lk_include.specs.Following.{IsListing, progress_of};
ghost use Rattle.lk_include.specs.Gathering.{gathered, missing, table_at, trees_from, trees_in, steps, from_root, lookml_paths, with_tables};
ghost use Rattle.lk_include.specs.Patterns.{is_root};
ghost use Rattle.lk_include.specs.Reading.{AreRead};

use crate::faults::line;
use crate::listing::{Listing, list, read_listed, roots_of};
use crate::project::{Project, ProjectFault};
use crate::reading::{Reading, Task, read_all};
use lk_io::Files;
use lk_read::Tree;
use lk_val::{Bytes, FaultLine, Items, NoMemory, Text, is_among};
use std::alloc::Global;
use std::collections::VecDeque;

/// The files of a project: the two tables' bytes, and the trees of the LookML files that the model file's includes reach, in
/// order of reading; or the first fault on the way. (Looker, LookML reference: include; lookd)
pub fn gather<F: Files>(alloc: Global, files: &mut F) -> Result<Project, ProjectFault>
    ensures project { IfSome (F.told files.old) (λ told. IsUnlessMemory is_outside result (gathered told)) }
    ensures read { IfOk result (λ project. AreRead project.trees) }
    ensures same { F.told files.new ≡ F.told files.old }
    ensures cause { HasProjectCause (F.faults files.old) (F.faults files.new) result }
{
    let listing = list(alloc, files)?;
    gather_listed(alloc, files, &listing)
}

// The same of the files in a listing, which is only looked at here, so that it is let go of in one place.
fn gather_listed<F: Files>(
    alloc: Global,
    files: &mut F,
    listing: &Listing,
) -> Result<Project, ProjectFault>
    requires { IfSome (F.told files.old) (IsListing listing.now) }
    ensures project { IfSome (F.told files.old) (λ told. IsUnlessMemory is_outside result (gathered told)) }
    ensures read { IfOk result (λ project. AreRead project.trees) }
    ensures same { F.told files.new ≡ F.told files.old }
    ensures cause { HasProjectCause (F.faults files.old) (F.faults files.new) result }
{
    if let Some(fault) = missing(alloc, listing, "schema.csv")? {
        return Err(ProjectFault::Model(fault));
    }
    if let Some(fault) = missing(alloc, listing, "users.csv")? {
        return Err(ProjectFault::Model(fault));
    }
    gather_whole(alloc, files, listing)
}

// The same where neither table is missing.
fn gather_whole<F: Files>(
    alloc: Global,
    files: &mut F,
    listing: &Listing,
) -> Result<Project, ProjectFault>
    requires { IfSome (F.told files.old) (IsListing listing.now) }
    ensures project { IfSome (F.told files.old) (λ told. IsUnlessMemory is_outside result
        (with_tables told (table_at told (codes "schema.csv")) (table_at told (codes "users.csv")))) }
    ensures read { IfOk result (λ project. AreRead project.trees) }
    ensures same { F.told files.new ≡ F.told files.old }
    ensures cause { HasProjectCause (F.faults files.old) (F.faults files.new) result }
{
    let schema = read_table(alloc, files, listing, "schema.csv")?;
    let users = read_table(alloc, files, listing, "users.csv")?;
    let trees = read_trees(alloc, files, listing)?;
    Ok(Project {
        schema: or_empty(alloc, schema),
        users: or_empty(alloc, users),
        trees,
    })
}

fn missing(alloc: Global, listing: &Listing, name: &str) -> Result<Option<FaultLine>, NoMemory>
    ensures { IfOk result (λ fault. fault ≡ missing listing.now.paths name.now) }
{
    let path = Text::from_str(alloc, name)?;
    if is_among(&path, listing.paths.as_slice()) {
        return Ok(None);
    }
    Ok(Some(line(alloc, "P2", &path, 0, "")?))
}

fn read_table<F: Files>(
    alloc: Global,
    files: &mut F,
    listing: &Listing,
    name: &str,
) -> Result<Option<Bytes>, ProjectFault>
    requires { IfSome (F.told files.old) (IsListing listing.now) }
    ensures table { IfSome (F.told files.old) (λ told.
        IsUnlessMemory is_outside result (table_at told name.now)) }
    ensures same { F.told files.new ≡ F.told files.old }
    ensures cause { HasProjectCause (F.faults files.old) (F.faults files.new) result }
{
    let path = Text::from_str(alloc, name)?;
    read_listed(alloc, files, listing, &path)
}

fn or_empty(alloc: Global, body: Option<Bytes>) -> Bytes
    ensures { result ≡ unwrap_or body [] }
{
    match body {
        None => Bytes::new(alloc),
        Some(body) => body,
    }
}

// The trees from the one model file on.
fn read_trees<F: Files>(
    alloc: Global,
    files: &mut F,
    listing: &Listing,
) -> Result<Items<(Text, Tree)>, ProjectFault>
    requires { IfSome (F.told files.old) (IsListing listing.now) }
    ensures trees { IfSome (F.told files.old) (λ told.
        IsUnlessMemory is_outside result (trees_from told (filter is_root (paths_of told)))) }
    ensures read { IfOk result AreRead }
    ensures same { F.told files.new ≡ F.told files.old }
    ensures cause { HasProjectCause (F.faults files.old) (F.faults files.new) result }
{
    let roots = roots_of(alloc, listing.paths.as_slice())?;
    match roots.as_slice() {
        [root] => read_from(alloc, files, listing, root),
        _ => Err(ProjectFault::Model(line(alloc, "M6", &Text::new(alloc), 0, "")?)),
    }
}

fn read_from<F: Files>(
    alloc: Global,
    files: &mut F,
    listing: &Listing,
    root: &Text,
) -> Result<Items<(Text, Tree)>, ProjectFault>
    requires { IfSome (F.told files.old) (IsListing listing.now) }
    ensures trees { IfSome (F.told files.old) (λ told. IsUnlessMemory is_outside result
        (trees_in (steps told (length (lookml_paths told)) (from_root (lookml_paths told) root.now)))) }
    ensures read { IfOk result AreRead }
    ensures same { F.told files.new ≡ F.told files.old }
    ensures cause { HasProjectCause (F.faults files.old) (F.faults files.new) result }
{
    let mut reading = from_root(alloc, listing.lookml.as_slice(), root)?;
    read_all(alloc, files, listing, &mut reading)?;
    let Reading { trees, .. } = reading;
    Ok(trees)
}

fn from_root(alloc: Global, lookml: &[Text], root: &Text) -> Result<Reading, NoMemory>
    ensures progress { IfOk result (λ reading. progress_of reading ≡ from_root lookml.now root.now) }
    ensures read { IfOk result (λ reading. AreRead reading.trees) }
{
    let mut tasks = VecDeque::new(alloc);
    tasks.push_back(Task::Read(root.copy(alloc)?))?;
    Ok(Reading {
        trees: Items::new(alloc),
        left: others(alloc, lookml, root)?,
        tasks,
    })
}

fn others(alloc: Global, paths: &[Text], path: &Text) -> Result<Items<Text>, NoMemory>
    ensures { IfOk result (λ left. left ≡ filter (λ other. not (is_same_text other path.now)) paths.now) }
{
    let mut left = Items::new(alloc);
    for other in paths {
        if *other != *path {
            left.push(other.copy(alloc)?)?;
        }
    }
    Ok(left)
}
