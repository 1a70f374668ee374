ghost use Rattle.std.specs.Prelude.{◌≡◌, ◌<◌, ◌≤◌, ◌+◌, ◌^◌, ◌++◌, ◌∷◌, [], List, Some, IfOk, IfSome, IfNone, IsErrOf, length, map};
ghost use Rattle.lk_io.specs.declared.files.File.{File};
ghost use Rattle.lk_val.specs.Memory.{IsUnlessMemory};
ghost use Rattle.lk_io.specs.Folder.{body_of};
ghost use Rattle.lk_include.specs.Causes.{HasProjectCause, is_outside};
ghost use Rattle.lk_include.specs.Gathering.{followed, step, steps, sized, after_body, after_reading, tree_in, reach_in, file_line};
ghost use Rattle.lk_include.specs.Following.{IsStep, IsListing, IsTold, refusal_of, progress_of, next_pending};
ghost use Rattle.lk_include.specs.Reading.{AreRead, IsRead, reading_of};
ghost use Rattle.lk_include.specs.declared.reading.Task.TheVariants.{Read, Reach};

use crate::faults::line;
use crate::includes::{Include, includes_of, reaches_nothing};
use crate::listing::{Listing, read_listed};
use crate::matching::{matched, pattern_for, unmatched};
use crate::project::ProjectFault;
use lk_io::Files;
use lk_read::{ReadFault, Tree, read_file};
use lk_val::{Items, NoMemory, Text};
use std::alloc::Global;
use std::collections::VecDeque;

/// What is to be done: to read a file, or to reach the files of an include in a file.
#[derive(Drop)]
pub enum Task {
    Read(Text),
    Reach(Text, Option<Text>),
}

/// How far reading has come: the trees so far, the LookML files that no include has reached, and what is to be done.
#[derive(Drop)]
pub struct Reading {
    pub trees: Items<(Text, Tree)>,
    pub left: Items<Text>,
    pub tasks: VecDeque<Task>,
}

/// Reads files until no task is left. Each step reads a file that was not read before.
pub fn read_all<F: Files>(
    alloc: Global,
    files: &mut F,
    listing: &Listing,
    reading: &mut Reading,
) -> Result<(), ProjectFault>
    requires listing { IfSome (F.told files.old) (IsListing listing.now) }
    requires read { AreRead reading.old.trees }
    ensures steps { IfSome (F.told files.old) (λ told. IsStep result
        (steps told (length listing.now.lookml) (progress_of reading.old)) (progress_of reading.new)) }
    ensures read { IfOk result (λ _. AreRead reading.new.trees) }
    ensures same { F.told files.new ≡ F.told files.old }
    ensures cause { HasProjectCause (F.faults files.old) (F.faults files.new) result }
{
    for round in 0..listing.lookml.len() {
        match read_one(alloc, files, listing, reading) {
            Ok(()) => {}
            Err(fault) => return Err(fault),
        }
    }
    Ok(())
}

fn read_one<F: Files>(
    alloc: Global,
    files: &mut F,
    listing: &Listing,
    reading: &mut Reading,
) -> Result<(), ProjectFault>
    requires listing { IfSome (F.told files.old) (IsListing listing.now) }
    requires read { AreRead reading.old.trees }
    ensures step { IfSome (F.told files.old) (λ told. IsStep result
        (step told (progress_of reading.old)) (progress_of reading.new)) }
    ensures read { IfOk result (λ _. AreRead reading.new.trees) }
    ensures same { F.told files.new ≡ F.told files.old }
    ensures cause { HasProjectCause (F.faults files.old) (F.faults files.new) result }
{
    match follow(alloc, reading)? {
        None => Ok(()),
        Some(path) => read_next(alloc, files, listing, path, reading),
    }
}

// Reads a file that is to be read, and takes its includes as tasks.
fn read_next<F: Files>(
    alloc: Global,
    files: &mut F,
    listing: &Listing,
    path: Text,
    reading: &mut Reading,
) -> Result<(), ProjectFault>
    requires listing { IfSome (F.told files.old) (IsListing listing.now) }
    requires read { AreRead reading.old.trees }
    ensures step { IfSome (F.told files.old) (λ told. IsStep result
        (after_body told reading.old.trees reading.old.left path reading.old.tasks.items
        (sized path (body_of path told))) (progress_of reading.new)) }
    ensures read { IfOk result (λ _. AreRead reading.new.trees) }
    ensures same { F.told files.new ≡ F.told files.old }
    ensures cause { HasProjectCause (F.faults files.old) (F.faults files.new) result }
{
    match read_listed(alloc, files, listing, &path)? {
        None => Ok(()),
        Some(body) => add_file(alloc, listing, path, body.as_slice(), reading),
    }
}

// Takes up a file: its tree, and its includes as tasks.
fn add_file(
    alloc: Global,
    listing: &Listing,
    path: Text,
    body: &[u8],
    reading: &mut Reading,
) -> Result<(), ProjectFault>
    requires small { length body.now < 2 ^ 32 }
    requires read { AreRead reading.old.trees }
    ensures step { (told : List File) → IsListing listing.now told → IsStep result
        (after_reading told reading.old.trees reading.old.left path reading.old.tasks.items
        (tree_in path (reading_of body.now))) (progress_of reading.new) }
    ensures read { IfOk result (λ _. AreRead reading.new.trees) }
    ensures never { IsErrOf result ProjectFault.Failed → ⊥ }
{
    let tree = read_tree(alloc, &path, body)?;
    let includes = includes_of(alloc, &tree)?;
    if let Some(line) = reaches_nothing(
        alloc,
        listing.lookml.as_slice(),
        &path,
        includes.as_slice(),
    )? {
        return Err(ProjectFault::Model(line));
    }
    reach_first(alloc, &path, includes, &mut reading.tasks)?;
    reading.trees.push((path, tree))?;
    Ok(())
}

// The tree of a file's bytes, or the line of their fault.
fn read_tree(alloc: Global, path: &Text, body: &[u8]) -> Result<Tree, ProjectFault>
    requires { length body.now < 2 ^ 32 }
    ensures tree { IsUnlessMemory is_outside result (tree_in path.now (reading_of body.now)) }
    ensures read { IfOk result IsRead }
    ensures never { IsErrOf result ProjectFault.Failed → ⊥ }
{
    match read_file(alloc, body) {
        Ok(tree) => Ok(tree),
        Err(fault) => Err(refusal(alloc, path, fault)),
    }
}

fn refusal(alloc: Global, path: &Text, fault: ReadFault) -> ProjectFault
    ensures told { IsTold (refusal_of path.now fault) result }
    ensures never { result ≡ ProjectFault.Failed → ⊥ }
{
    match fault {
        ReadFault::R1(place) => placed(alloc, "R1", path, place),
        ReadFault::R2(place) => placed(alloc, "R2", path, place),
        ReadFault::R3(place) => placed(alloc, "R3", path, place),
        ReadFault::R4(place) => placed(alloc, "R4", path, place),
        ReadFault::R5(place) => placed(alloc, "R5", path, place),
        ReadFault::NoMemory => ProjectFault::NoMemory,
    }
}

fn placed(alloc: Global, code: &str, path: &Text, place: u32) -> ProjectFault
    ensures told { IsTold (Some (file_line code.now path.now place [])) result }
    ensures never { result ≡ ProjectFault.Failed → ⊥ }
{
    match line(alloc, code, path, place, "") {
        Ok(line) => ProjectFault::Model(line),
        Err(_) => ProjectFault::NoMemory,
    }
}

// Follows includes until a file is to be read, and takes that file off the tasks.
fn follow(alloc: Global, reading: &mut Reading) -> Result<Option<Text>, NoMemory>
    ensures next { IfOk result (λ next. followed reading.old.left reading.old.tasks.items
        ≡ next_pending next reading.new.left reading.new.tasks.items) }
    ensures done { IfOk result (λ next. IfNone next (reading.new.tasks.items ≡ [])) }
    ensures trees { reading.new.trees ≡ reading.old.trees }
{
    while let Some(task) = reading.tasks.pop_front() {
        match task {
            Task::Read(path) => return Ok(Some(path)),
            Task::Reach(file, pattern) => reach(alloc, &file, &pattern, reading)?,
        }
    }
    Ok(None)
}

// The files that an include reaches are to be read before all else.
fn reach(
    alloc: Global,
    file: &Text,
    pattern: &Option<Text>,
    reading: &mut Reading,
) -> Result<(), NoMemory>
    ensures same { IfOk result (λ _. followed reading.new.left reading.new.tasks.items
        ≡ followed reading.old.left (Reach file.now pattern.now ∷ reading.old.tasks.items)) }
    ensures fewer { IfOk result (λ _. length reading.new.left + length reading.new.tasks.items
        ≤ length reading.old.left + length reading.old.tasks.items) }
    ensures trees { reading.new.trees ≡ reading.old.trees }
{
    let pattern = pattern_for(alloc, file, pattern)?;
    let paths = matched(alloc, &pattern, reading.left.as_slice())?;
    if paths.is_empty() {
        return Ok(());
    }
    reading.left = unmatched(alloc, &pattern, reading.left.as_slice())?;
    read_first(paths, &mut reading.tasks)
}

// Files are to be read, in order, before all else.
fn read_first(paths: Items<Text>, tasks: &mut VecDeque<Task>) -> Result<(), NoMemory>
    ensures { IfOk result (λ _. tasks.new.items ≡ map Read paths ++ tasks.old.items) }
{
    let mut paths = paths.into_vec();
    while let Some(path) = paths.pop() {
        tasks.push_front(Task::Read(path))?;
    }
    Ok(())
}

// The includes of a file are to be followed, in order, before all else.
fn reach_first(
    alloc: Global,
    path: &Text,
    includes: Items<Include>,
    tasks: &mut VecDeque<Task>,
) -> Result<(), NoMemory>
    ensures { IfOk result (λ _. tasks.new.items ≡ map (reach_in path.now) includes ++ tasks.old.items) }
{
    let mut includes = includes.into_vec();
    while let Some(include) = includes.pop() {
        let Include { pattern, .. } = include;
        tasks.push_front(Task::Reach(path.copy(alloc)?, pattern))?;
    }
    Ok(())
}
