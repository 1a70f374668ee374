//! The program `lookd_why`: which aggregate tables of an explore fit a query and by which point each other one does not, over a
//! folder, the standard input and the standard output.
#![tactic(auto)]

ghost use Rattle.std.specs.Prelude.{◌≡◌, [], IfOk, slice_index_or};

mod body;
mod lines;
mod reply;
mod running;
mod stop;
mod telling;
mod words;

use lk_io::{Clock, FolderFiles, InSource, OutSink, RealClock};
use lk_val::{Items, NoMemory, Text};
use running::run;
use std::alloc::Global;
use std::io::ErrorKind;
use std::process::ExitCode;
use std::rt::Env;
use std::{env, io};

// The status where memory is refused before the run has begun.
const NO_MEMORY: u8 = 6;

fn main(rt: HostRuntime) -> ExitCode {
    match start(rt) {
        Ok(status) => ExitCode::from(status),
        Err(NoMemory) => ExitCode::from(NO_MEMORY),
    }
}

// Runs the words over the folder that the first of them names.
fn start(rt: HostRuntime) -> Result<u8, NoMemory> {
    let alloc = rt.alloc();
    let words = given_words(alloc, &rt)?;
    let folder = folder_of(alloc, words.as_slice())?;
    let system: HostRuntime = rt.clone()?;
    let mut files = FolderFiles::at(system, folder);
    let mut input = InSource::new(rt.reader());
    let mut out = OutSink::new(io::writer(&rt));
    let now = RealClock::new(rt).now();
    Ok(run(
        alloc,
        words.as_slice(),
        &mut files,
        &mut input,
        &mut out,
        now,
    ))
}

// The words after the program's name. Words that are no text are taken as none, which have no known form.
fn given_words<R: Env + AllocGlobal>(alloc: Global, rt: &R) -> Result<Items<Text>, NoMemory> {
    let mut words = Items::new(alloc);
    match env::args(rt) {
        Ok(given) => {
            for word in given.skip(1) {
                words.push(Text::from_string(word))?;
            }
            Ok(words)
        }
        Err(error) if error.kind() == ErrorKind::OutOfMemory => Err(NoMemory),
        Err(_) => Ok(words),
    }
}

// The first word, or the empty text where there is none.
fn folder_of(alloc: Global, words: &[Text]) -> Result<Text, NoMemory>
    ensures { IfOk result (λ folder. folder ≡ slice_index_or words.now 0 []) }
{
    match words.get(0) {
        Some(folder) => folder.copy(alloc),
        None => Ok(Text::new(alloc)),
    }
}
