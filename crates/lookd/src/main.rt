//! The program `lookd`: the words of the command line, over a folder, a store, the standard input, the standard output, connections
//! by TCP and the system's clock.
#![tactic(auto)]

ghost use Rattle.std.specs.Prelude.{◌≡◌, [], IfOk, slice_index_or};

use lk_io::{FolderFiles, InSource, OutSink, RealClock};
use lk_keep::{Held, Keeper};
use lk_listen::TcpDoor;
use lk_serve::{keeper_for, run};
use lk_val::{Items, NoMemory, Text};
use std::alloc::Global;
use std::fs::File;
use std::io::ErrorKind;
use std::process::ExitCode;
use std::rt::Env;
use std::sync::Wait;
use std::thread::Threads;
use std::{env, io};

// The status where memory is refused before the run has begun.
const NO_MEMORY: u8 = 6;

fn main(rt: HostRuntime) -> ExitCode {
    let ended = match prepare(&rt) {
        Ok(
            Prepared {
                words,
                keeper,
                streams: _streams,
            },
        ) => start(&rt, &rt, words.as_slice(), keeper),
        Err(NoMemory) => Err(NoMemory),
    };
    match ended {
        Ok(status) => ExitCode::from(status),
        Err(NoMemory) => ExitCode::from(NO_MEMORY),
    }
}

// What a run begins with.
struct Prepared {
    words: Items<Text>,
    keeper: Held,
    streams: Streams,
}

// What takes the numbers of standard streams, where anything does.
#[derive(Drop)]
struct Streams {
    first: Option<File>,
    second: Option<File>,
    third: Option<File>,
}

// Reads the words and makes the store of a run with them. It isn't opened yet.
fn prepare(rt: &HostRuntime) -> Result<Prepared, NoMemory> {
    let words = read_words(rt.alloc(), rt)?;
    let keeper = keeper_for(rt, words.as_slice())?;
    let streams = announce(rt, &keeper, words.as_slice());
    Ok(Prepared {
        words,
        keeper,
        streams,
    })
}

// Runs the words over a store, the folder that the second of them names, and the address that the third one is. `threads` is the
// runtime again, of which `main` alone knows that it has threads. The store is a parameter's, since a call of `run` over an open file
// of SQLite is past the prover's limit of steps where it also has to look through `R`.
fn start<R: Threads + Wait + Sync, K: Keeper + Drop + Send>(
    rt: &HostRuntime,
    threads: &R,
    words: &[Text],
    keeper: K,
) -> Result<u8, NoMemory> {
    let alloc = rt.alloc();
    let mut files = FolderFiles::at(rt.clone()?, word_at(alloc, words, 1)?);
    let mut input = InSource::new(rt.reader());
    let mut out = OutSink::new(io::writer(rt));
    let door = TcpDoor::at(rt.clone()?, alloc, word_at(alloc, words, 2)?);
    let mut clock = RealClock::new(rt.clone()?);
    let ran = run(
        threads, alloc, words, &mut files, keeper, &mut input, &mut out, door, &mut clock,
    );
    Ok(ran.status)
}

// Where the store is a file, so that connections are to be served: says over which folder, and gives what takes the numbers of standard
// streams that the program was started without. Else the store's file would get such a number, and what is written there.
fn announce(rt: &HostRuntime, keeper: &Held, words: &[Text]) -> Streams {
    match (keeper, words.get(1)) {
        (Held::File(_), Some(folder)) => {
            let streams = Streams {
                first: taken(rt),
                second: taken(rt),
                third: taken(rt),
            };
            let folder = folder.as_str();
            // A server works without somebody who reads this.
            let _ = eprintln!(rt; "lookd: serving {folder}");
            streams
        }
        _ => Streams {
            first: None,
            second: None,
            third: None,
        },
    }
}

// A file that has the least number that was free.
fn taken(rt: &HostRuntime) -> Option<File> {
    File::open(rt, "/dev/null").ok()
}

// The words after the program's name. Words that are no text are taken as none, which no command has.
fn read_words<R: Env + AllocGlobal>(alloc: Global, rt: &R) -> Result<Items<Text>, NoMemory> {
    let mut words = Items::new(alloc);
    match env::args(rt) {
        Ok(given) => {
            for word in given.skip(1) {
                words.push(Text::from_string(word))?;
            }
            Ok(words)
        }
        Err(error) if error.kind() == ErrorKind::OutOfMemory => Err(NoMemory),
        Err(_) => Ok(words),
    }
}

// The word at a place, or the empty text where there is none.
fn word_at(alloc: Global, words: &[Text], place: usize) -> Result<Text, NoMemory>
    ensures { IfOk result (λ word. word ≡ slice_index_or words.now place []) }
{
    match words.get(place) {
        Some(word) => word.copy(alloc),
        None => Ok(Text::new(alloc)),
    }
}
