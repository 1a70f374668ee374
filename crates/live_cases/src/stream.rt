// What the connections of the cases are made of.
ghost use Rattle.std.specs.Prelude.{None};

use crate::gate::Holding;
use lk_io::{Failed, MemSource, Pair, Sink, Source};
use std::sync::{Mutex, Wait};

/// A connection: what it sends, and where the case finds what it was sent.
pub type CaseLink<'a, R> = Pair<Waiting<'a>, Telling<'a, R>>;

/// Bytes that come once a query is held, if they wait for that.
#[derive(Drop)]
pub struct Waiting<'a> {
    pub bytes: MemSource,
    pub until: Option<&'a Holding>,
    pub faults: u64,
}

impl Source for Waiting<'_> {
    ghost left = { λ _. None };

    ghost faults = { λ source. source.faults };

    fn pull(&mut self, into: &mut [u8]) -> Result<usize, Failed> {
        if let Some(gate) = self.until {
            gate.await_held();
        }
        match self.bytes.pull(into) {
            Ok(count) => Ok(count),
            Err(fault) => {
                self.faults = self.faults.saturating_add(1);
                Err(fault)
            }
        }
    }
}

/// Keeps what is put where others find it.
#[derive(Drop)]
pub struct Telling<'a, R> {
    pub rt: &'a R,
    pub told: &'a Mutex<Vec<u8>>,
    pub faults: u64,
}

impl<R: Wait + Sync> Sink for Telling<'_, R> {
    ghost held = { λ _. None };

    ghost faults = { λ sink. sink.faults };

    fn put(&mut self, bytes: &[u8]) -> Result<(), Failed> {
        if self.told.lock(self.rt).extend_from_slice(bytes).is_ok() {
            return Ok(());
        }
        self.faults = self.faults.saturating_add(1);
        Err(Failed)
    }
}
