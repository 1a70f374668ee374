// How the file of a store is opened, so that opening and reading it take little time.
ghost use Rattle.std.specs.Prelude.{IfOk, IsTrue};
ghost use Rattle.sqlite_std_file.specs.File.{file_is_usable};

use crate::sql_keeper::refusal::Refusal;
use sqlite::{Connection, FileFrom, FileStore, Files, Options, Start};
use sqlite_disk::Disk;
use sqlite_wal::probe_page_size;
use std::alloc::Global;
use std::hash::{BuildHasher, RandomState};

// Of a database file of at most so many bytes each page is kept in memory, since it is read four times: three times by
// the opening, and once more for its rows. From a block of 32 MB or more glibc learns nothing (`ask_for`).
const WHOLE: usize = 30 << 20;

// Of a longer file so many bytes of pages are kept, and of a shorter one so many as well, for its log and for what is
// added to it.
const PART: usize = 8 << 20;

// The page size of a new file.
const NEW_PAGE: usize = 4096;

// The database file at a path and its log, which are made if they are missing. What SQLite takes for more than a path
// is refused.
pub(crate) fn files_at<S: Start>(
    rt: &HostRuntime,
    path: &str,
    start: S,
) -> Result<Files<FileFrom<S>>, Refusal>
    ensures log { IfOk result (λ files. IsTrue (file_is_usable S.Start files.log)) }
    ensures db { IfOk result (λ files. IsTrue (file_is_usable S.Start files.db)) }
{
    if path == ":memory:" || path.starts_with("file:") {
        return Err(Refusal::Failed);
    }
    Ok(sqlite_std_file::open(rt, path, start)?)
}

// The database in these files, which is an empty one if they are.
pub(crate) fn connect<D: Disk + Drop>(
    rt: &HostRuntime,
    mut files: Files<D>,
) -> Result<Connection<FileStore<D>>, Refusal>
    requires log { IsTrue (D.Disk.is_usable files.log) }
    requires db { IsTrue (D.Disk.is_usable files.db) }
{
    let mut options = Options::new(RandomState::new(rt)?.hash_one(&0u8));
    options.cache_pages = pages_kept(rt.alloc(), &mut files)?;
    match Connection::open_files(rt.alloc(), files, options) {
        Ok(connection) => Ok(connection),
        Err((error, _)) => Err(Refusal::from(error)),
    }
}

// How many pages of the database file are kept in memory.
fn pages_kept<D: Disk>(alloc: Global, files: &mut Files<D>) -> Result<usize, Refusal>
    requires log { IsTrue (D.Disk.is_usable files.old.log) }
    requires db { IsTrue (D.Disk.is_usable files.old.db) }
    ensures log { IsTrue (D.Disk.is_usable files.new.log) }
    ensures db { IsTrue (D.Disk.is_usable files.new.db) }
{
    let page = match probe_page_size(files)? {
        Some(size) => size.bytes(),
        None => NEW_PAGE,
    };
    let length = files.db.len()?;
    if length > WHOLE {
        return Ok(PART / page);
    }
    ask_for(alloc, length);
    Ok(length.max(PART) / page)
}

// Takes a block of this length and gives it back; nothing needs it, so it may be refused. The opening frees the rows that
// it has tested, and the reading takes as much again. glibc hands such memory to the system in between, to get it anew
// page by page, unless it has seen a block freed that was as large, or its sizes are fixed from outside.
fn ask_for(alloc: Global, length: usize) {
    drop(Vec::<u8>::with_capacity(alloc, length));
}
