use crate::fault::CaseFault;
use crate::fields::{bytes_of, parted};
use crate::outside::keeper_of;
use crate::printed::{add_batches, add_loads};
use crate::store::{Place, Store};
use lk_keep::{Command, KeepFault, Keeper, Kept};
use lk_val::Text;
use sqlite::Connection;
use std::alloc::Global;
use std::fs;

/// The answer of a line on a store of loads, behind the word `store`: `begin` makes a store in a new file, `open` opens the
/// same file anew, and `at PATH` one that is there; `memory FIELDS` makes one in memory, with those fields of `outside` that speak
/// of a store; `load NUMBER ID TABLE append|replace ROWS | BODY`, `check NUMBER` and `read` call the store; `sql TEXT` closes it
/// and changes its file by SQL, and `readonly` closes it and lets nobody write to its file.
pub fn answer_store(rt: &HostRuntime, store: &mut Store, line: &str) -> Result<Text, CaseFault> {
    let alloc = rt.alloc();
    let (task, rest) = parted(line, " ");
    match task {
        "read" => answer_read(alloc, store),
        "check" => answer_check(alloc, store, rest),
        "load" => answer_load(alloc, store, rest),
        "sql" => answer_sql(rt, store, rest),
        _ => {
            store.change(rt, Place::Nowhere)?;
            let place = place_of(rt, store, task, rest)?;
            store.change(rt, place)?;
            Ok(Text::from_str(alloc, task)?)
        }
    }
}

// Where the next store is.
fn place_of(
    rt: &HostRuntime,
    store: &mut Store,
    task: &str,
    rest: &str,
) -> Result<Place, CaseFault> {
    let alloc = rt.alloc();
    match task {
        "begin" => store.begin(),
        "open" => {}
        "readonly" => {
            forbid_writing(rt, store.path(alloc)?.as_str()).ok_or(CaseFault::NoSuchCase)?;
        }
        "at" => return Ok(Place::File(Text::from_str(alloc, rest)?)),
        "memory" => return Ok(Place::Memory(keeper_of(alloc, rest)?)),
        _ => return Err(CaseFault::NoSuchCase),
    }
    Ok(Place::File(store.path(alloc)?))
}

fn number(text: &str) -> Result<u64, CaseFault> {
    text.parse::<u64>().ok().ok_or(CaseFault::NoSuchCase)
}

fn answer_check(alloc: Global, store: &mut Store, rest: &str) -> Result<Text, CaseFault> {
    let answer = store.keeper()?.save_check(alloc, number(rest)?);
    outcome(alloc, store, answer)
}

fn answer_load(alloc: Global, store: &mut Store, rest: &str) -> Result<Text, CaseFault> {
    let command = command_of(alloc, rest)?;
    let answer = store.keeper()?.save_load(alloc, &command);
    outcome(alloc, store, answer)
}

fn command_of(alloc: Global, rest: &str) -> Result<Command, CaseFault> {
    let (words, body) = parted(rest, " | ");
    let words: Vec<&str> = words.split(' ').collect(alloc)?;
    let [at, id, table, mode, rows] = words.as_slice() else {
        return Err(CaseFault::NoSuchCase);
    };
    Ok(Command {
        number: number(at)?,
        rows: number(rows)?,
        replace: *mode == "replace",
        id: Text::from_str(alloc, id)?,
        table: Text::from_str(alloc, table)?,
        body: bytes_of(alloc, body)?,
    })
}

// `saved`, or what failed and how many calls did so far.
fn outcome(alloc: Global, store: &Store, answer: Result<(), KeepFault>) -> Result<Text, CaseFault> {
    match answer {
        Ok(()) => Ok(Text::from_str(alloc, "saved")?),
        Err(fault) => refused(alloc, store, fault),
    }
}

fn refused(alloc: Global, store: &Store, fault: KeepFault) -> Result<Text, CaseFault> {
    let faults = store.faults()?;
    Ok(Text::from_string(format!(in alloc; "{fault}: {faults} so far")?))
}

fn answer_read(alloc: Global, store: &mut Store) -> Result<Text, CaseFault> {
    match store.keeper()?.load_all(alloc) {
        Ok(kept) => print_kept(alloc, &kept),
        Err(fault) => refused(alloc, store, fault),
    }
}

fn print_kept(alloc: Global, kept: &Kept) -> Result<Text, CaseFault> {
    let number = kept.number;
    let mut text = format!(in alloc; "{number}")?;
    add_batches(alloc, kept.chunks.as_slice(), &mut text)?;
    add_loads(alloc, kept.ids.as_slice(), &mut text)?;
    Ok(Text::from_string(text))
}

fn answer_sql(rt: &HostRuntime, store: &mut Store, text: &str) -> Result<Text, CaseFault> {
    store.change(rt, Place::Nowhere)?;
    let path = store.path(rt.alloc())?;
    let answer = match run_sql(rt, path.as_str(), text) {
        Some(rows) => format!(in rt.alloc(); "{rows} changed")?,
        None => format!(in rt.alloc(); "refused")?,
    };
    Ok(Text::from_string(answer))
}

fn run_sql(rt: &HostRuntime, path: &str, text: &str) -> Option<usize> {
    let mut connection = Connection::open(rt, path).ok()?;
    connection.execute(text, &[]).ok()
}

fn forbid_writing(rt: &HostRuntime, path: &str) -> Option<()> {
    let mut permissions = fs::metadata(rt, path).ok()?.permissions();
    permissions.set_readonly(true);
    fs::set_permissions(rt, path, permissions).ok()
}
