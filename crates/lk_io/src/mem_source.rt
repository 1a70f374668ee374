ghost use Rattle.std.specs.Prelude.{◌≡◌, ◌<◌, ◌≤◌, min, drop, Some, IfOk, OnErr, length, is_err};
ghost use Rattle.std.specs.Io.KnownBytes.{ReadConsumes};
ghost use Rattle.lk_io.specs.Causes.{HasCause};
ghost use Rattle.lk_io.specs.Memory.{no_calls, is_due, after_call};

use crate::calls::Calls;
use crate::faults::Failed;
use crate::source::Source;
use lk_val::{Bytes, Items};
use std::io::Read;
use std::marker::Model;

/// Bytes in memory to pull, of which chosen calls fail.
#[derive(Drop)]
pub struct MemSource {
    bytes: Bytes,
    // How many bytes were taken.
    taken: usize,
    calls: Calls,
}

impl Model for MemSource {
    ghost use Rattle.std.specs.Prelude.{◌≤◌, drop, length};
    ghost use Rattle.lk_io.specs.Memory.{Input};

    ghost Value = { Input };

    ghost view = { λ source. record { left = drop source.taken source.bytes; calls = source.calls } };

    ghost invariant = { λ source. source.taken ≤ length source.bytes };
}

impl MemSource {
    /// A source of these bytes. The calls with the numbers in `failing`, from 0, fail.
    pub fn new(bytes: Bytes, failing: Items<u64>) -> MemSource
        ensures { result ≡ record { left = bytes; calls = no_calls failing } }
    {
        MemSource {
            bytes,
            taken: 0,
            calls: Calls::none(failing),
        }
    }

    /// How many calls failed.
    pub fn faults(&self) -> u64
        ensures { result ≡ self.now.calls.faults }
    {
        self.calls.faults
    }
}

impl Source for MemSource {
    ghost left = { λ source. Some source.left };

    ghost faults = { λ source. source.calls.faults };

    fn pull(&mut self, into: &mut [u8]) -> Result<usize, Failed>
        requires { 0 < length into.old }
        ensures bound { IfOk result (λ count. count ≤ length into.new) }
        ensures bytes { ReadConsumes (Some self.old.left) (Some self.new.left) result into.new }
        ensures cause { HasCause self.old.calls.faults self.new.calls.faults result }

        ensures fails { is_err result ≡ is_due self.old.calls }
        ensures count { IfOk result (λ count.
            count ≡ min (length self.old.left) (length into.old)) }
        ensures calls { self.new.calls ≡ after_call (is_due self.old.calls) self.old.calls }
        ensures untouched { OnErr result (into.new ≡ into.old) }
        ensures rest { IfOk result (λ count. drop count into.new ≡ drop count into.old) }
    {
        if self.calls.count() {
            return Err(Failed);
        }
        let mut left = &self.bytes.as_slice()[self.taken..];
        let Ok(count) = left.read(into) else {
            unreachable!()
        };
        self.taken += count;
        Ok(count)
    }
}
