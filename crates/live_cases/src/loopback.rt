// A run of the program that serves connections by TCP, of which both ends are here.
ghost use Rattle.std.specs.Prelude.{◌≡◌, ◌≤◌, true, IfNone, IfOk, IfSome, OnErr};
ghost use Rattle.lk_io.specs.Causes.{HasCause};

use crate::fault::CaseFault;
use crate::project::{batches, folder, keeper};
use crate::served::run_over;
use crate::text::{bytes_of, on_one_line};
use lk_io::Failed;
use lk_listen::{Door, TcpDoor};
use lk_val::Text;
use std::io::{ErrorKind, Read, Write};
use std::net::{Shutdown, TcpListener, TcpStream};
use std::sync::Wait;
use std::thread::Threads;
use std::time::Duration;
use std::{io, thread};

// How often a client tries to connect, a millisecond apart.
const CONNECT_TRIES: usize = 10_000;

/// A door that gives one connection of another one, and then ends.
#[derive(Drop)]
struct Once<D> {
    door: D,
    given: bool,
    ended: bool,
}

impl<D: Door> Door for Once<D> {
    type L = D::L;

    ghost faults = { λ once. D.faults once.door };

    ghost ended = { λ once. once.ended };

    fn next(&mut self) -> Result<Option<D::L>, Failed> {
        if self.given {
            self.ended = true;
            return Ok(None);
        }
        match self.door.next()? {
            Some(link) => {
                self.given = true;
                Ok(Some(link))
            }
            None => {
                self.ended = true;
                Ok(None)
            }
        }
    }
}

/// The answer of `PROJECT WORKERS | REQUESTS`: the status, what the store holds then, and what the connection was sent.
pub fn answer_loopback<R: Threads + Wait + Sync + AllocGlobal>(
    rt: &HostRuntime,
    threads: &R,
    call: &str,
    requests: &str,
) -> Result<Text, CaseFault> {
    let alloc = rt.alloc();
    let (project, workers) = call.split_once(" ").ok_or(CaseFault::NoSuchCase)?;
    let mut files = folder(rt, project)?;
    let store = keeper(alloc, batches(alloc, &mut files)?);
    let address = free_address(rt)?;
    let door = Once {
        door: TcpDoor::at(rt.clone()?, alloc, address.copy(alloc)?),
        given: false,
        ended: false,
    };
    let requests = bytes_of(alloc, requests)?;
    let (address, requests) = (address.as_str(), requests.as_slice());
    let (sent, end) = thread::join(
        threads,
        move || ask(rt, address, requests),
        || run_over(threads, workers, &mut files, store, door),
    );
    let (sent, end) = (sent?, end?);
    let text = on_one_line(alloc, sent.as_slice())?;
    let (end, text) = (end.as_str(), text.as_str());
    Ok(Text::from_string(format!(in alloc; "{end}; {text}")?))
}

// An address of this system at which nobody listens.
fn free_address(rt: &HostRuntime) -> Result<Text, CaseFault> {
    let listener = TcpListener::bind(rt, "127.0.0.1:0")?;
    let address = listener.local_addr()?;
    Ok(Text::from_string(format!(in rt.alloc(); "{address}")?))
}

// Connects, as soon as somebody listens there.
fn connect(rt: &HostRuntime, address: &str) -> io::Result<TcpStream> {
    for _ in 0..CONNECT_TRIES {
        match TcpStream::connect(rt, address) {
            Err(error) if error.kind() == ErrorKind::ConnectionRefused => {
                thread::sleep(rt, Duration::from_millis(1));
            }
            answer => return answer,
        }
    }
    Err(io::Error::from(ErrorKind::ConnectionRefused))
}

// Sends requests, ends that, and reads what comes back to its end.
fn ask(rt: &HostRuntime, address: &str, requests: &[u8]) -> io::Result<Vec<u8>> {
    let mut stream = connect(rt, address)?;
    stream.write_all(requests)?;
    stream.shutdown(Shutdown::Write)?;
    let mut answer = Vec::new(rt.alloc());
    stream.read_to_end(&mut answer)?;
    Ok(answer)
}
