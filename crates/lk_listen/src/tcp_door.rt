ghost use Rattle.std.specs.Prelude.{◌≡◌, false, IfOk, IsSome, is_err, if◌then◌else◌};
ghost use Rattle.lk_io.specs.Causes.{HasCause, next_count};
ghost use Rattle.lk_listen.specs.System.{door_runtime, door_address, door_faults};

use crate::door::Door;
use crate::tcp_link::{TcpLink, link_over};
use lk_io::Failed;
use lk_val::Text;
use std::alloc::Global;
use std::io;
use std::io::ErrorKind;
use std::net::{Net, TcpListener, TcpStream};

/// The most connections that one call takes up which were given up before it had them. One more is a fault.
/// (lookd)
pub const ACCEPT_TRIES: usize = 1_000;

/// Connections to an address of this system, by TCP. It listens from its first call on, and never ends.
#[derive(Drop)]
pub struct TcpDoor<R> {
    rt: R,
    alloc: Global,
    // A host and a port.
    address: Text,
    // What is bound to the address, once something is.
    listener: Option<TcpListener>,
    faults: u64,
}

impl<R> TcpDoor<R> {
    /// The door at this address, a host and a port as in `127.0.0.1:8080`. It is looked at only by the first
    /// call, which binds it, and then writes a line to the standard error: that has to be open.
    pub fn at(rt: R, alloc: Global, address: Text) -> TcpDoor<R>
        ensures runtime { door_runtime result ≡ rt }
        ensures address { door_address result ≡ address }
        ensures faults { door_faults result ≡ 0 }
    {
        TcpDoor {
            rt,
            alloc,
            address,
            listener: None,
            faults: 0,
        }
    }

    /// How many calls failed.
    pub fn faults(&self) -> u64
        ensures { result ≡ door_faults self.now }
    {
        self.faults
    }
}

// Whether accepting again may give a connection: a signal cut the call off, or the peer gave its own up.
fn is_passing(kind: ErrorKind) -> bool {
    matches!(
        kind,
        ErrorKind::Interrupted | ErrorKind::ConnectionAborted | ErrorKind::ConnectionReset
    )
}

fn accept(listener: &TcpListener) -> io::Result<TcpStream> {
    for _ in 0..ACCEPT_TRIES {
        match listener.accept() {
            Err(error) if is_passing(error.kind()) => {}
            Err(error) => return Err(error),
            Ok((stream, _)) => return Ok(stream),
        }
    }
    Err(io::Error::from(ErrorKind::ConnectionAborted))
}

// Binds an address, and says so to whoever started the program.
fn listen<R: Net<Listener = TcpListener, Stream = TcpStream> + Eprint>(
    rt: &R,
    address: &str,
) -> io::Result<TcpListener> {
    let listener = TcpListener::bind(rt, address)?;
    // What is bound may have another port: the system picks one for port 0.
    let bound = listener.local_addr()?;
    // A server works without somebody who reads this.
    let _ = eprintln!(rt; "lookd: listening on {bound}");
    Ok(listener)
}

impl<R: Net<Listener = TcpListener, Stream = TcpStream> + Eprint> TcpDoor<R> {
    // The next connection. What is bound stays so.
    fn connection(&mut self) -> io::Result<TcpLink>
        ensures { door_faults self.new ≡ door_faults self.old }
    {
        let listener = match self.listener.take() {
            Some(listener) => listener,
            None => listen(&self.rt, self.address.as_str())?,
        };
        let accepted = accept(&listener);
        self.listener = Some(listener);
        link_over(self.alloc, accepted?)
    }
}

impl<R: Net<Listener = TcpListener, Stream = TcpStream> + Eprint + Send> Door for TcpDoor<R> {
    type L = TcpLink;

    ghost faults = { λ door. door_faults door };

    ghost ended = { λ _. false };

    /// The next connection, for which it waits. A call fails where the address can't be bound, which the
    /// next call tries again, and where memory or another open file is refused to a connection, which is
    /// then closed.
    fn next(&mut self) -> Result<Option<TcpLink>, Failed>
        ensures never { IfOk result (λ next. IsSome next) }
        ensures cause { HasCause (door_faults self.old) (door_faults self.new) result }

        ensures counted { door_faults self.new ≡
            (if is_err result then next_count (door_faults self.old) else door_faults self.old) }
    {
        match self.connection() {
            Ok(link) => Ok(Some(link)),
            Err(_) => {
                self.faults = self.faults.saturating_add(1);
                Err(Failed)
            }
        }
    }
}

// Takes types whose values may be handed to other threads.
fn are_sent<T: Send>() {}

/// A door and its connections may be handed to other threads: that is what the types of this body say. It
/// computes nothing. (lookd)
pub fn tcp_doors_are_sent<R: Net<Listener = TcpListener, Stream = TcpStream> + Eprint + Send>() {
    are_sent::<TcpDoor<R>>();
    are_sent::<TcpLink>();
}
