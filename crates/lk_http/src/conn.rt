ghost use Rattle.std.specs.Prelude.{◌≡◌, IfOk, IfSome, IsErrOf, false};
ghost use Rattle.lk_io.specs.Causes.{Rose};
ghost use Rattle.lk_http.specs.Answers.{IsAnswer, OnlyReads};
ghost use Rattle.lk_http.specs.Reading.{request_after};
ghost use Rattle.lk_http.specs.Ways.{Comes};
ghost use Rattle.lk_http.specs.declared.faults.HttpFault.{HttpFault};

use crate::asked::{Asked, Parts, read_asked};
use crate::faults::HttpFault;
use crate::head::HEAD_LIMIT;
use crate::reading::{Front, read_body, read_head};
use crate::request::{Got, Request};
use crate::routes::{Route, server_router};
use lk_io::Link;
use lk_val::{Bytes, NoMemory};
use matchit::Router;
use std::alloc::Global;
use std::marker::Model;

/// The reader of a connection: the memory for heads, the router, and whether the last request asked to close. Clauses see the
/// last alone.
#[derive(Drop)]
pub struct Conn {
    head: Vec<u8>,
    router: Router<Route>,
    close: bool,
}

impl Model for Conn {
    ghost use Rattle.std.specs.Prelude.{◌≡◌, ◌≤◌, Bool};
    ghost use Rattle.std.specs.Vec.{vec_capacity};
    ghost use Rattle.lk_http.specs.Routes.{server_routes};

    ghost Value = { Bool };

    ghost view = { λ conn. conn.close };

    ghost invariant = { λ conn. (16384 ≤ vec_capacity conn.head) × (conn.router ≡ server_routes) };
}

impl Conn {
    /// A reader, with the routes of the server and the memory for a head of 16,384 bytes, so that reading a head takes none.
    pub fn new(alloc: Global) -> Result<Conn, NoMemory>
        ensures { IfOk result (λ conn. conn ≡ false) }
    {
        Ok(Conn {
            head: Vec::with_capacity(alloc, HEAD_LIMIT)?,
            router: server_router(alloc)?,
            close: false,
        })
    }

    /// Whether the last request asked to close, also one that was dropped for want of memory.
    pub fn asks_close(&self) -> bool
        ensures { result ≡ self.now }
    {
        self.close
    }
}

/// The next request of a connection, or why there is none. It takes no byte past it. After `NoMemory` the
/// request was read and dropped. (RFC 9112; lookd)
pub fn read_request<L: Link>(alloc: Global, link: &mut L, conn: &mut Conn) -> Result<Got, HttpFault>
    ensures next { IfSome (L.left link.old) (λ bytes. IsAnswer bytes (L.left link.new) conn.new result) }
    ensures link { OnlyReads (L.held link.old) (L.held link.new)
        (L.Sink.faults link.old) (L.Sink.faults link.new)
        (L.Source.faults link.old) (L.Source.faults link.new) }
    ensures cause { IsErrOf result HttpFault.ReadFault →
        Rose (L.Source.faults link.old) (L.Source.faults link.new) }
    ensures pulls { Comes L.Source.keeps_at_pull link.old link.new }
{
    match read_head(link, &mut conn.head) {
        Ok(Front::Head) => {
            let asked = read_asked(alloc, &conn.router, conn.head.as_slice());
            conn.close = asked.close;
            let body = read_body(alloc, link, asked.length);
            route(asked, body)
        }
        Ok(Front::Ended) => Ok(Got::End),
        Err(fault) => Err(fault),
    }
}

// The request of a head and its body, which is None where memory was refused, or why that was not read.
fn route(asked: Asked, body: Result<Option<Bytes>, HttpFault>) -> Result<Got, HttpFault>
    ensures { result ≡ request_after asked.post asked.close body asked.parts }
{
    let body = body?;
    let Asked {
        post,
        close,
        length: _,
        parts,
    } = asked;
    let Parts { user, target } = parts?;
    let Some(target) = target else {
        return Err(HttpFault::H4(close));
    };
    if !post {
        return Err(HttpFault::H5(close));
    }
    let Some(body) = body else {
        return Err(HttpFault::NoMemory);
    };
    Ok(Got::Req(Request {
        user,
        target,
        body,
        close,
    }))
}
