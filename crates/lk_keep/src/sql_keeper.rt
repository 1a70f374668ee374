ghost use Rattle.std.specs.Prelude.{◌≡◌, None, IfOk, IfSome};
ghost use Rattle.lk_ledger.specs.Causes.{HasKeepCause, count_after};
ghost use Rattle.lk_ledger.specs.Saved.{IsSaved};
ghost use Rattle.lk_keep.specs.System.{sql_faults};

mod id;
mod opening;
mod reading;
mod refusal;
mod writing;

use lk_ledger::{Command, KeepFault, Keeper, Kept, faults_after};
use lk_val::Text;
use opening::{connect, files_at};
use reading::read_store;
use refusal::Refusal;
use sqlite::{Alter, Connection, File, FileStore, Unknown};
use std::alloc::Global;
use std::rt::HostRuntime;
use writing::{write_check, write_load};

/// A store of loads in a file of SQLite. It tells nothing. It opens the file at its first call, and anew
/// after a call that failed. Each refusal but want of memory is a fault. `C` is the open file: a parameter, so that the prover sees
/// that a thread may be given the store without looking into it. (lookd)
#[derive(Drop)]
pub struct SqlKeeper<C = Connection<FileStore<File>>> {
    rt: HostRuntime,
    path: Text,
    // The open file; none before the first call, nor after one that failed.
    opened: Option<C>,
    faults: u64,
}

// What a call does with the open file.
#[derive(Drop)]
enum Task<'c> {
    Read(Global),
    Load(&'c Command),
    Check(u64),
}

// Does it with the open file, and lets go of that where it fails. A read alone hands something over.
fn run_on<S: Alter + Drop>(
    opened: &mut Option<Connection<S>>,
    task: Task<'_>,
) -> Result<Option<Kept>, Refusal>
    ensures saved { IfOk result (λ kept. IfSome kept IsSaved) }
{
    let answer = match opened {
        Some(connection) => run(connection, task),
        None => Err(Refusal::Failed),
    };
    if answer.is_err() {
        drop(opened.take());
    }
    answer
}

fn run<S: Alter>(connection: &mut Connection<S>, task: Task<'_>) -> Result<Option<Kept>, Refusal>
    ensures saved { IfOk result (λ kept. IfSome kept IsSaved) }
{
    match task {
        Task::Read(alloc) => return Ok(Some(read_store(alloc, connection)?)),
        Task::Load(command) => write_load(connection, command)?,
        Task::Check(number) => write_check(connection, number)?,
    }
    Ok(None)
}

impl SqlKeeper {
    /// The store in the file at this path, which is opened or made at the first call.
    pub fn at(rt: HostRuntime, path: Text) -> SqlKeeper
        ensures faults { sql_faults result ≡ 0 }
    {
        SqlKeeper {
            rt,
            path,
            opened: None,
            faults: 0,
        }
    }

    /// How many calls failed.
    pub fn faults(&self) -> u64
        ensures { result ≡ sql_faults self.now }
    {
        self.faults
    }

    // One function for all calls: each that names the store of the file is dear to prove.
    fn call(&mut self, task: Task<'_>) -> Result<Option<Kept>, Refusal>
        ensures saved { IfOk result (λ kept. IfSome kept IsSaved) }
        ensures same { sql_faults self.new ≡ sql_faults self.old }
    {
        if self.opened.is_none() {
            let files = files_at(&self.rt, self.path.as_str(), Unknown)?;
            let connection = connect(&self.rt, files)?;
            drop(self.opened.replace(connection));
        }
        run_on(&mut self.opened, task)
    }

    fn read(&mut self, alloc: Global) -> Result<Kept, KeepFault>
        ensures saved { IfOk result IsSaved }
        ensures same { sql_faults self.new ≡ sql_faults self.old }
    {
        self.call(Task::Read(alloc))?.ok_or(KeepFault::Failed)
    }

    fn write(&mut self, task: Task<'_>) -> Result<(), KeepFault>
        ensures same { sql_faults self.new ≡ sql_faults self.old }
    {
        self.call(task)?;
        Ok(())
    }

    // Counts a call's fault.
    fn count<T>(&mut self, answer: Result<T, KeepFault>) -> Result<T, KeepFault>
        ensures same { result ≡ answer }
        ensures counted { sql_faults self.new ≡ count_after (sql_faults self.old) result }

        ensures cause { HasKeepCause (sql_faults self.old) (sql_faults self.new) result }
    {
        self.faults = faults_after(self.faults, &answer);
        answer
    }
}

impl Keeper for SqlKeeper {
    ghost held = { λ _. None };

    ghost handed = { λ _ kept. IsSaved kept };

    ghost faults = { λ keeper. sql_faults keeper };

    fn load_all(&mut self, alloc: Global) -> Result<Kept, KeepFault>
        ensures cause { HasKeepCause (sql_faults self.old) (sql_faults self.new) result }

        ensures saved { IfOk result IsSaved }
        ensures counted { sql_faults self.new ≡ count_after (sql_faults self.old) result }
    {
        let answer = self.read(alloc);
        self.count(answer)
    }

    fn save_load(&mut self, _: Global, command: &Command) -> Result<(), KeepFault>
        ensures cause { HasKeepCause (sql_faults self.old) (sql_faults self.new) result }

        ensures counted { sql_faults self.new ≡ count_after (sql_faults self.old) result }
    {
        let answer = self.write(Task::Load(command));
        self.count(answer)
    }

    fn save_check(&mut self, _: Global, number: u64) -> Result<(), KeepFault>
        ensures cause { HasKeepCause (sql_faults self.old) (sql_faults self.new) result }

        ensures counted { sql_faults self.new ≡ count_after (sql_faults self.old) result }
    {
        let answer = self.write(Task::Check(number));
        self.count(answer)
    }
}
