ghost use Rattle.std.specs.Prelude.{◌≡◌, ◌≢◌, ◌≤◌, None, IfOk, IfSome, IsErrOf, length, vec_len};
ghost use Rattle.std.specs.Cmp.Lexicographic.{slice_cmp};
ghost use Rattle.std.specs.IoError.{error_kind};
ghost use Rattle.std.specs.List.Sorted.{IsSorted};
ghost use Rattle.std.specs.Ordering.{nat_cmp};
ghost use Rattle.lk_io.specs.Causes.{Rose, HasFileCause, next_count};
ghost use Rattle.lk_io.specs.Folder.{path_in};
ghost use Rattle.lk_io.specs.System.{folder_runtime, folder_path, folder_faults};

use crate::faults::FileFault;
use crate::files::{FILE_LIMIT, Files};
use lk_val::{Bytes, Items, Text};
use std::alloc::{AllocError, Global};
use std::io::{ErrorKind, Read};
use std::{fs, io, rt};

/// A folder of the system and its subfolders. It tells nothing, and follows no symbolic link below the
/// folder. Symbolic links, sockets and the like are no files of it; a name that is not UTF-8 is a fault.
#[derive(Drop)]
pub struct FolderFiles<R> {
    rt: R,
    folder: Text,
    faults: u64,
}

impl<R> FolderFiles<R> {
    /// The folder at this path, which is looked at only when it is listed or read.
    pub fn at(rt: R, folder: Text) -> FolderFiles<R>
        ensures runtime { folder_runtime result ≡ rt }
        ensures path { folder_path result ≡ folder }
        ensures faults { folder_faults result ≡ 0 }
    {
        FolderFiles {
            rt,
            folder,
            faults: 0,
        }
    }

    /// How many calls failed.
    pub fn faults(&self) -> u64
        ensures { result ≡ folder_faults self.now }
    {
        self.faults
    }

    // What an error of the system is to the caller. All but want of memory are counted as faults.
    fn fault_of(&mut self, error: io::Error) -> FileFault
        ensures later { folder_faults self.old ≤ folder_faults self.new }
        ensures rose { result ≡ FileFault.Failed →
            Rose (folder_faults self.old) (folder_faults self.new) }
        ensures counted { result ≡ FileFault.Failed →
            folder_faults self.new ≡ next_count (folder_faults self.old) }
        ensures kept { result ≢ FileFault.Failed → folder_faults self.new ≡ folder_faults self.old }
        ensures memory { error_kind error ≡ ErrorKind.OutOfMemory →
            result ≡ FileFault.NoMemory }
        ensures fault { error_kind error ≢ ErrorKind.OutOfMemory → result ≡ FileFault.Failed }
        ensures not_big { result ≡ FileFault.TooBig → ⊥ }
    {
        if error.kind() == ErrorKind::OutOfMemory {
            return FileFault::NoMemory;
        }
        self.faults = self.faults.saturating_add(1);
        FileFault::Failed
    }
}

// The path of a name in a folder; the name itself where the folder's path is empty.
fn joined(alloc: Global, folder: &str, name: &str) -> Result<Text, AllocError>
    ensures { IfOk result (λ path. path ≡ path_in folder.now name.now) }
{
    let mut path = String::from_str(alloc, folder)?;
    if !folder.is_empty() {
        path.push('/')?;
    }
    path.push_str(name)?;
    Ok(Text::from_string(path))
}

// What a walk over the folder has found, all relative to it.
#[derive(Drop)]
struct Walk {
    files: Vec<Text>,
    // The folders that it has yet to visit.
    folders: Vec<Text>,
}

impl Walk {
    // Visits a folder that is left, if there is one.
    fn go_on<R: rt::Files + AllocGlobal + Clone + Drop>(
        &mut self,
        rt: &R,
        root: &str,
    ) -> io::Result<bool> {
        match self.folders.pop() {
            None => Ok(false),
            Some(folder) => {
                self.visit(rt, root, &folder)?;
                Ok(true)
            }
        }
    }

    // Notes the files and the folders of one folder.
    fn visit<R: rt::Files + AllocGlobal + Clone + Drop>(
        &mut self,
        rt: &R,
        root: &str,
        folder: &Text,
    ) -> io::Result<()> {
        let place = joined(rt.alloc(), root, folder.as_str())?;
        for entry in fs::read_dir(rt, place.as_str())? {
            self.note(rt.alloc(), folder, entry)?;
        }
        Ok(())
    }

    fn note<R: rt::Files + Drop>(
        &mut self,
        alloc: Global,
        folder: &Text,
        entry: io::Result<fs::DirEntry<R>>,
    ) -> io::Result<()> {
        let entry = entry?;
        let path = joined(alloc, folder.as_str(), entry.file_name())?;
        self.add(path, entry.file_type())
    }

    fn add(&mut self, path: Text, kind: io::Result<fs::FileType>) -> io::Result<()> {
        let kind = kind?;
        if kind.is_dir() {
            self.folders.push(path)?;
        } else if kind.is_file() {
            self.files.push(path)?;
        }
        Ok(())
    }
}

// The path of every file below the root, relative to it and sorted.
fn paths_below<R: rt::Files + AllocGlobal + Clone + Drop>(
    rt: &R,
    alloc: Global,
    root: &str,
) -> io::Result<Vec<Text>>
    ensures { IfOk result (λ paths. IsSorted (slice_cmp nat_cmp) paths.items) }
{
    let mut walk = Walk {
        files: Vec::new(alloc),
        folders: vec![in alloc; Text::new(alloc)]?,
    };
    for _ in 0..u64::MAX {
        if !walk.go_on(rt, root)? {
            walk.files.sort()?;
            return Ok(walk.files);
        }
    }
    // A loop must be seen to end, so this one stops after 2^64 - 1 turns, more than a walk takes.
    Err(io::Error::from(ErrorKind::TimedOut))
}

// Where the file at a listed path lies. A path that could lead out of the root is an error: one with
// `..`, and one with a symbolic link on the way.
fn place_of<R: rt::Files>(rt: &R, alloc: Global, root: &str, path: &str) -> io::Result<Text> {
    let mut place = Text::from_string(String::from_str(alloc, root)?);
    for name in path.split('/') {
        enter(rt, alloc, name, &mut place)?;
    }
    Ok(place)
}

// Goes on from a place to what has this name there.
fn enter<R: rt::Files>(rt: &R, alloc: Global, name: &str, place: &mut Text) -> io::Result<()> {
    if name.is_empty() || name == "." || name == ".." {
        return Err(io::Error::from(ErrorKind::InvalidFilename));
    }
    *place = joined(alloc, place.as_str(), name)?;
    refuse_link(rt, place.as_str())
}

fn refuse_link<R: rt::Files>(rt: &R, place: &str) -> io::Result<()> {
    if fs::symlink_metadata(rt, place)?.is_symlink() {
        return Err(io::Error::from(ErrorKind::InvalidFilename));
    }
    Ok(())
}

// A file's bytes, and `None` where it has more than `most`. It takes little more memory than `most`.
fn read_within<R: rt::Files>(
    rt: &R,
    alloc: Global,
    place: &str,
    most: usize,
) -> io::Result<Option<Vec<u8>>>
    requires { most ≤ 67108864 }
    ensures { IfOk result (λ body. IfSome body (λ bytes. vec_len bytes ≤ most)) }
{
    // One byte more shows that the file is longer, and the read that finds its end wants room too.
    let mut bytes = Vec::with_capacity(alloc, most + 2)?;
    let mut front = fs::open(rt, place)?.take(most as u64 + 1);
    front.read_to_end(&mut bytes)?;
    if bytes.len() > most {
        return Ok(None);
    }
    Ok(Some(bytes))
}

// A file's bytes, and `None` where it has more than a file may have.
fn read_file<R: rt::Files>(
    rt: &R,
    alloc: Global,
    root: &str,
    path: &str,
) -> io::Result<Option<Vec<u8>>>
    ensures { IfOk result (λ body. IfSome body (λ bytes. vec_len bytes ≤ 67108864)) }
{
    let place = place_of(rt, alloc, root, path)?;
    let metadata = fs::symlink_metadata(rt, place.as_str())?;
    if !metadata.is_file() {
        return Err(io::Error::from(ErrorKind::InvalidInput));
    }
    if metadata.len() > FILE_LIMIT as u64 {
        return Ok(None);
    }
    match read_within(rt, alloc, place.as_str(), metadata.len() as usize)? {
        Some(bytes) => Ok(Some(bytes)),
        // The file has grown since.
        None => read_within(rt, alloc, place.as_str(), FILE_LIMIT),
    }
}

impl<R: rt::Files + AllocGlobal + Clone + Drop> Files for FolderFiles<R> {
    ghost told = { λ _. None };

    ghost faults = { λ files. folder_faults files };

    fn list(&mut self, alloc: Global) -> Result<Items<Text>, FileFault>
        ensures sorted { IfOk result (λ paths. IsSorted (slice_cmp nat_cmp) paths) }
        ensures not_big { IsErrOf result FileFault.TooBig → ⊥ }
        ensures cause { HasFileCause (folder_faults self.old) (folder_faults self.new) result }

        ensures counted { IsErrOf result FileFault.Failed →
            folder_faults self.new ≡ next_count (folder_faults self.old) }
        ensures kept { (IsErrOf result FileFault.Failed → ⊥) →
            folder_faults self.new ≡ folder_faults self.old }
    {
        match paths_below(&self.rt, alloc, self.folder.as_str()) {
            Ok(paths) => Ok(Items::from_vec(paths)),
            Err(error) => Err(self.fault_of(error)),
        }
    }

    fn read(&mut self, alloc: Global, path: &Text) -> Result<Bytes, FileFault>
        ensures small { IfOk result (λ bytes. length bytes ≤ 67108864) }
        ensures cause { HasFileCause (folder_faults self.old) (folder_faults self.new) result }

        ensures counted { IsErrOf result FileFault.Failed →
            folder_faults self.new ≡ next_count (folder_faults self.old) }
        ensures kept { (IsErrOf result FileFault.Failed → ⊥) →
            folder_faults self.new ≡ folder_faults self.old }
    {
        match read_file(&self.rt, alloc, self.folder.as_str(), path.as_str()) {
            Ok(Some(bytes)) => Ok(Bytes::from_vec(bytes)),
            Ok(None) => Err(FileFault::TooBig),
            Err(error) => Err(self.fault_of(error)),
        }
    }
}
