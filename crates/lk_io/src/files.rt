ghost use Rattle.std.specs.Prelude.{◌≡◌, ◌≤◌, ℕ, List, Option, IfOk, IfSome, IsErrOf, length};
ghost use Rattle.std.specs.Cmp.Lexicographic.{slice_cmp};
ghost use Rattle.std.specs.List.Sorted.{IsSorted};
ghost use Rattle.std.specs.Ordering.{nat_cmp};
ghost use Rattle.lk_io.specs.Causes.{HasFileCause};
ghost use Rattle.lk_io.specs.Folder.{paths_of, body_of, IsListed, IsBig};

use crate::faults::FileFault;
use lk_val::{Bytes, Items, Text};
use std::alloc::Global;

/// A file of a folder: its path relative to the folder, with `/` between names, and its bytes.
#[derive(Drop)]
pub struct File {
    pub path: Text,
    pub body: Bytes,
}

/// The most bytes that a file may have.
pub const FILE_LIMIT: usize = 67_108_864;

/// A folder of files. An object may tell them.
pub trait Files {
    ghost use Rattle.lk_io.specs.declared.files.File.{File};

    /// The folder's files in order of their paths, where the object tells.
    ghost told: { Self → Option (List File) };

    /// How many calls failed.
    ghost faults: { Self → ℕ };

    /// Every file's path, sorted by bytes.
    fn list(&mut self, alloc: Global) -> Result<Items<Text>, FileFault>
        ensures all { IfOk result (λ paths.
            IfSome (told self.old) (λ files. paths ≡ paths_of files)) }
        ensures sorted { IfOk result (λ paths. IsSorted (slice_cmp nat_cmp) paths) }
        ensures not_big { IsErrOf result FileFault.TooBig → ⊥ }
        ensures same { told self.new ≡ told self.old }
        ensures cause { HasFileCause (faults self.old) (faults self.new) result };

    /// A listed file's bytes; `TooBig` where it has more than 67,108,864.
    fn read(&mut self, alloc: Global, path: &Text) -> Result<Bytes, FileFault>
        requires { IfSome (told self.old) (λ files. IsListed path.now files) }
        ensures bytes { IfOk result (λ bytes.
            IfSome (told self.old) (λ files. body_of path.now files ≡ Some bytes)) }
        ensures small { IfOk result (λ bytes. length bytes ≤ 67108864) }
        ensures too_big { IsErrOf result FileFault.TooBig →
            IfSome (told self.old) (λ files. IsBig path.now files) }
        ensures same { told self.new ≡ told self.old }
        ensures cause { HasFileCause (faults self.old) (faults self.new) result };
}
