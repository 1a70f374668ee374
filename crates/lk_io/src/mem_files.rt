ghost use Rattle.std.specs.Prelude.{◌≡◌, ◌≤◌, ◌↔◌, Some, IfOk, IfSome, IsErrOf, IsTrue, false, length};
ghost use Rattle.std.specs.Cmp.Lexicographic.{slice_cmp};
ghost use Rattle.std.specs.List.{find};
ghost use Rattle.std.specs.List.Sorted.{IsSorted};
ghost use Rattle.std.specs.Option.{option_copied};
ghost use Rattle.std.specs.Ordering.{nat_cmp};
ghost use Rattle.lk_io.specs.Causes.{HasFileCause};
ghost use Rattle.lk_io.specs.Folder.{paths_of, body_of, is_at, IsListed, IsBig, IsInOrder};
ghost use Rattle.lk_io.specs.Memory.{no_calls, is_due, after_call};

use crate::calls::Calls;
use crate::faults::FileFault;
use crate::files::{FILE_LIMIT, File, Files};
use lk_val::{Bytes, Items, NoMemory, Text};
use std::alloc::Global;
use std::marker::Model;

/// A folder in memory, of which chosen calls fail.
#[derive(Drop)]
pub struct MemFiles {
    files: Vec<File>,
    calls: Calls,
}

impl Model for MemFiles {
    ghost use Rattle.std.specs.Cmp.Lexicographic.{slice_cmp};
    ghost use Rattle.std.specs.List.Sorted.{IsSortedByKey};
    ghost use Rattle.std.specs.Ordering.{nat_cmp};
    ghost use Rattle.lk_io.specs.Memory.{Folder};

    ghost Value = { Folder };

    ghost view = { λ folder. record { files = folder.files.items; calls = folder.calls } };

    ghost invariant = { λ folder.
        IsSortedByKey (λ file. file.path) (slice_cmp nat_cmp) folder.files.items };
}

impl MemFiles {
    /// A folder of these files, which it sorts by path. The calls with the numbers in `failing`, from 0,
    /// fail.
    pub fn new(alloc: Global, files: Items<File>, failing: Items<u64>) -> Result<MemFiles, NoMemory>
        ensures order { IfOk result (λ folder. IsInOrder files folder.files) }
        ensures calls { IfOk result (λ folder. folder.calls ≡ no_calls failing) }
    {
        let mut files = files.into_vec();
        files.sort_by(|one, other| one.path.cmp(&other.path))?;
        Ok(MemFiles {
            files,
            calls: Calls::none(failing),
        })
    }

    /// How many calls failed.
    pub fn faults(&self) -> u64
        ensures { result ≡ self.now.calls.faults }
    {
        self.calls.faults
    }
}

// A copy of each file's path.
fn copy_paths(alloc: Global, files: &[File]) -> Result<Items<Text>, NoMemory>
    ensures { IfOk result (λ paths. paths ≡ paths_of files.now) }
{
    let mut paths = Items::new(alloc);
    for file in files {
        paths.push(file.path.copy(alloc)?)?;
    }
    Ok(paths)
}

// The first file at this path.
fn file_at<'a>(files: &'a [File], path: &Text) -> Option<&'a File>
    ensures { option_copied result ≡ find (is_at path.now) files.now }
{
    files.iter().find(|file| file.path == *path)
}

// A copy of the body of the first file at this path.
fn copy_body(alloc: Global, files: &[File], path: &Text) -> Result<Bytes, FileFault>
    requires { IsListed path.now files.now }
    ensures bytes { IfOk result (λ bytes. body_of path.now files.now ≡ Some bytes) }
    ensures small { IfOk result (λ bytes. length bytes ≤ 67108864) }
    ensures too_big { IsErrOf result FileFault.TooBig → IsBig path.now files.now }
    ensures big { IsBig path.now files.now → IsErrOf result FileFault.TooBig }
    ensures never { IsErrOf result FileFault.Failed → ⊥ }
{
    let Some(file) = file_at(files, path) else {
        unreachable!()
    };
    if file.body.len() > FILE_LIMIT {
        return Err(FileFault::TooBig);
    }
    Ok(file.body.copy(alloc)?)
}

impl Files for MemFiles {
    ghost told = { λ folder. Some folder.files };

    ghost faults = { λ folder. folder.calls.faults };

    fn list(&mut self, alloc: Global) -> Result<Items<Text>, FileFault>
        ensures all { IfOk result (λ paths. paths ≡ paths_of self.old.files) }
        ensures sorted { IfOk result (λ paths. IsSorted (slice_cmp nat_cmp) paths) }
        ensures not_big { IsErrOf result FileFault.TooBig → ⊥ }
        ensures same { self.new.files ≡ self.old.files }
        ensures cause { HasFileCause self.old.calls.faults self.new.calls.faults result }

        ensures fails { IsErrOf result FileFault.Failed ↔ IsTrue (is_due self.old.calls) }
        ensures calls { self.new.calls ≡ after_call (is_due self.old.calls) self.old.calls }
    {
        if self.calls.count() {
            return Err(FileFault::Failed);
        }
        Ok(copy_paths(alloc, self.files.as_slice())?)
    }

    fn read(&mut self, alloc: Global, path: &Text) -> Result<Bytes, FileFault>
        requires { IsListed path.now self.old.files }
        ensures bytes { IfOk result (λ bytes. body_of path.now self.old.files ≡ Some bytes) }
        ensures small { IfOk result (λ bytes. length bytes ≤ 67108864) }
        ensures too_big { IsErrOf result FileFault.TooBig → IsBig path.now self.old.files }
        ensures same { self.new.files ≡ self.old.files }
        ensures cause { HasFileCause self.old.calls.faults self.new.calls.faults result }

        ensures fails { IsErrOf result FileFault.Failed ↔ IsTrue (is_due self.old.calls) }
        ensures big { is_due self.old.calls ≡ false → IsBig path.now self.old.files →
            IsErrOf result FileFault.TooBig }
        ensures calls { self.new.calls ≡ after_call (is_due self.old.calls) self.old.calls }
    {
        if self.calls.count() {
            return Err(FileFault::Failed);
        }
        copy_body(alloc, self.files.as_slice(), path)
    }
}
