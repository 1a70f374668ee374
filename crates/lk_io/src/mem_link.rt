ghost use Rattle.std.specs.Prelude.{◌≡◌, ◌<◌, ◌≤◌, [], min, drop, Some, IfOk, OnOk, OnErr, length, is_err};
ghost use Rattle.std.specs.Io.KnownBytes.{Appends, ReadConsumes};
ghost use Rattle.std.proofs.Common.{ap};
ghost use Rattle.lk_io.specs.Causes.{HasCause};
ghost use Rattle.lk_io.specs.Links.{link_input, link_output};
ghost use Rattle.lk_io.specs.Memory.{no_calls, is_due, after_call, put_fails, after_put};
ghost use Rattle.lk_io.specs.Streams.{AppendsFront};

use crate::faults::Failed;
use crate::link::Link;
use crate::mem_sink::MemSink;
use crate::mem_source::MemSource;
use crate::sink::Sink;
use crate::source::Source;
use lk_val::{Bytes, Items, NoMemory};
use std::alloc::Global;

/// A connection in memory: bytes to pull, and those that were put, of which chosen calls fail.
#[derive(Drop)]
pub struct MemLink {
    source: MemSource,
    sink: MemSink,
}

impl MemLink {
    /// A link that gives these bytes and has this room in bytes for what is put, whose memory it takes now.
    /// The pulls and the puts with the numbers in the two lists, each from 0, fail.
    pub fn new(
        alloc: Global,
        bytes: Bytes,
        room: usize,
        failing_pulls: Items<u64>,
        failing_puts: Items<u64>,
    ) -> Result<MemLink, NoMemory>
        ensures input { IfOk result (λ link.
            link_input link ≡ record { left = bytes; calls = no_calls failing_pulls }) }
        ensures output { IfOk result (λ link.
            link_output link ≡ record { held = []; room = room; calls = no_calls failing_puts }) }
    {
        Ok(MemLink {
            source: MemSource::new(bytes, failing_pulls),
            sink: MemSink::new(alloc, room, failing_puts)?,
        })
    }

    /// The bytes that went out.
    pub fn held(&self) -> &[u8]
        ensures { result.now ≡ (link_output self.now).held }
    {
        self.sink.held()
    }

    /// How many pulls failed.
    pub fn read_faults(&self) -> u64
        ensures { result ≡ (link_input self.now).calls.faults }
    {
        self.source.faults()
    }

    /// How many puts failed.
    pub fn write_faults(&self) -> u64
        ensures { result ≡ (link_output self.now).calls.faults }
    {
        self.sink.faults()
    }
}

impl Source for MemLink {
    ghost left = { λ link. Some (link_input link).left };

    ghost faults = { λ link. (link_input link).calls.faults };

    ghost keeps_at_pull = { λ old new. link_output new ≡ link_output old };

    fn pull(&mut self, into: &mut [u8]) -> Result<usize, Failed>
        requires { 0 < length into.old }
        ensures bound { IfOk result (λ count. count ≤ length into.new) }
        ensures bytes { ReadConsumes (Some (link_input self.old).left) (Some (link_input self.new).left)
            result into.new }
        ensures cause { HasCause (link_input self.old).calls.faults (link_input self.new).calls.faults result }
        ensures same { link_output self.new ≡ link_output self.old }

        ensures fails { is_err result ≡ is_due (link_input self.old).calls }
        ensures count { IfOk result (λ count.
            count ≡ min (length (link_input self.old).left) (length into.old)) }
        ensures calls { (link_input self.new).calls ≡
            after_call (is_due (link_input self.old).calls) (link_input self.old).calls }
        ensures untouched { OnErr result (into.new ≡ into.old) }
        ensures rest { IfOk result (λ count. drop count into.new ≡ drop count into.old) }
    {
        self.source.pull(into)
    }
}

impl Sink for MemLink {
    ghost held = { λ link. Some (link_output link).held };

    ghost faults = { λ link. (link_output link).calls.faults };

    ghost keeps_at_put = { λ old new. link_input new ≡ link_input old };

    fn put(&mut self, bytes: &[u8]) -> Result<(), Failed>
        ensures ok { OnOk result
            (Appends (Some (link_output self.old).held) (Some (link_output self.new).held) bytes.now) }
        ensures err { OnErr result (AppendsFront
            (Some (link_output self.old).held) (Some (link_output self.new).held) bytes.now) }
        ensures cause { HasCause (link_output self.old).calls.faults (link_output self.new).calls.faults result }
        ensures same { link_input self.new ≡ link_input self.old }

        ensures fails { is_err result ≡ put_fails (link_output self.old) bytes.now }
        ensures after { link_output self.new ≡ after_put (link_output self.old) bytes.now }
    {
        self.sink.put(bytes)
    }
}

impl Link for MemLink {
    ghost pull_keeps = { λ _ _ same. (ap (λ o. Some o.held) same, ap (λ o. o.calls.faults) same) };

    ghost put_keeps = { λ _ _ same. (ap (λ i. Some i.left) same, ap (λ i. i.calls.faults) same) };
}
