ghost use Rattle.std.specs.Prelude.{◌≡◌, [], IfOk};
ghost use Rattle.lk_io.specs.Memory.{no_calls};
ghost use Rattle.lk_serve.specs.Keeping.{IsKeeperFor, empty_kept};

use crate::words::{Command, read_words};
use lk_keep::{Held, SqlKeeper};
use lk_ledger::{Kept, MemKeeper};
use lk_val::{Items, NoMemory, Text};
use std::alloc::Global;

/// The store of a run with these words: the file `store.db` in the folder where they are `serve DIR ADDRESS WORKERS`, with 1 to
/// 16 workers and no word that begins with `-`; and for all other words an empty store in memory, none of whose calls fail.
/// (lookd)
pub fn keeper_for(rt: &HostRuntime, words: &[Text]) -> Result<Held, NoMemory>
    ensures { IfOk result (IsKeeperFor words.now) }
{
    let alloc = rt.alloc();
    match read_words(words) {
        Command::Serve(folder, _) => {
            let folder = folder.as_str();
            let path = Text::from_string(format!(in alloc; "{folder}/store.db")?);
            Ok(Held::File(SqlKeeper::at(rt.clone()?, path)))
        }
        Command::Unknown | Command::Check | Command::Query(..) | Command::Script => {
            Ok(Held::Memory(empty_keeper(alloc)))
        }
    }
}

/// An empty store in memory, none of whose calls fail.
pub fn empty_keeper(alloc: Global) -> MemKeeper
    ensures kept { result.kept ≡ empty_kept }
    ensures calls { result.calls ≡ no_calls [] }
{
    MemKeeper::new(empty_kept(alloc), Items::new(alloc))
}

// What a store holds before its first save.
fn empty_kept(alloc: Global) -> Kept
    ensures { result ≡ empty_kept }
{
    Kept {
        number: 0,
        chunks: Items::new(alloc),
        ids: Items::new(alloc),
    }
}
