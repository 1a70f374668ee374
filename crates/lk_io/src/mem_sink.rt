ghost use Rattle.std.specs.Prelude.{◌≡◌, [], Some, IfOk, OnOk, OnErr, is_err};
ghost use Rattle.std.specs.Io.KnownBytes.{Appends};
ghost use Rattle.lk_io.specs.Causes.{HasCause};
ghost use Rattle.lk_io.specs.Memory.{no_calls, put_fails, after_put};
ghost use Rattle.lk_io.specs.Streams.{AppendsFront};

use crate::calls::Calls;
use crate::faults::Failed;
use crate::sink::Sink;
use lk_val::{Items, NoMemory};
use std::alloc::Global;
use std::marker::Model;

/// Bytes in memory that were put, with room for so many, of which chosen calls fail.
#[derive(Drop)]
pub struct MemSink {
    held: Vec<u8>,
    // The most bytes that it may hold, for which it has the memory.
    room: usize,
    calls: Calls,
}

impl Model for MemSink {
    ghost use Rattle.std.specs.Prelude.{◌≤◌, vec_len};
    ghost use Rattle.std.specs.Vec.{vec_capacity};
    ghost use Rattle.lk_io.specs.Memory.{Output};

    ghost Value = { Output };

    ghost view = { λ sink. record { held = sink.held.items; room = sink.room; calls = sink.calls } };

    ghost invariant = { λ sink.
        (vec_len sink.held ≤ sink.room) × (sink.room ≤ vec_capacity sink.held) };
}

impl MemSink {
    /// A sink with this room in bytes, whose memory it takes now, so that a put takes none. The calls with
    /// the numbers in `failing`, from 0, fail.
    pub fn new(alloc: Global, room: usize, failing: Items<u64>) -> Result<MemSink, NoMemory>
        ensures { IfOk result (λ sink.
            sink ≡ record { held = []; room = room; calls = no_calls failing }) }
    {
        Ok(MemSink {
            held: Vec::with_capacity(alloc, room)?,
            room,
            calls: Calls::none(failing),
        })
    }

    /// The bytes that went out.
    pub fn held(&self) -> &[u8]
        ensures { result.now ≡ self.now.held }
    {
        self.held.as_slice()
    }

    /// How many calls failed.
    pub fn faults(&self) -> u64
        ensures { result ≡ self.now.calls.faults }
    {
        self.calls.faults
    }
}

impl Sink for MemSink {
    ghost held = { λ sink. Some sink.held };

    ghost faults = { λ sink. sink.calls.faults };

    fn put(&mut self, bytes: &[u8]) -> Result<(), Failed>
        ensures ok { OnOk result (Appends (Some self.old.held) (Some self.new.held) bytes.now) }
        ensures err { OnErr result
            (AppendsFront (Some self.old.held) (Some self.new.held) bytes.now) }
        ensures cause { HasCause self.old.calls.faults self.new.calls.faults result }

        ensures fails { is_err result ≡ put_fails self.old bytes.now }
        ensures after { self.new ≡ after_put self.old bytes.now }
    {
        if self.calls.count() {
            return Err(Failed);
        }
        let free = self.room - self.held.len();
        let fitting = &bytes[..bytes.len().min(free)];
        let Ok(()) = self.held.extend_from_slice(fitting) else {
            unreachable!()
        };
        if fitting.len() < bytes.len() {
            self.calls.fail();
            return Err(Failed);
        }
        Ok(())
    }
}
