ghost use Rattle.std.specs.Prelude.{◌≡◌, ◌≤◌, ◌||◌, [], true, false, IfNone, IfOk, IfSome, OnErr, is_err, slice_get};
ghost use Rattle.lk_io.specs.Causes.{HasCause};
ghost use Rattle.lk_io.specs.Memory.{no_calls, is_due, after_call};
ghost use Rattle.lk_listen.specs.Arrivals.{next_fails, after_next};

use crate::door::Door;
use lk_io::{Calls, Failed, Link};
use lk_val::Items;
use std::alloc::Global;
use std::collections::VecDeque;
use std::marker::Model;

/// Connections in memory, of which chosen calls fail.
#[derive(Drop)]
pub struct MemDoor<L> {
    links: VecDeque<L>,
    // Whether a call has answered that there are no more.
    ended: bool,
    // Whether every call fails.
    broken: bool,
    calls: Calls,
}

impl<L> Model for MemDoor<L> {
    ghost use Rattle.lk_listen.specs.Arrivals.{Arrivals};

    ghost Value = { Arrivals L };

    ghost view = { λ door. record {
      links = door.links.items;
      ended = door.ended;
      broken = door.broken;
      calls = door.calls;
    } };
}

impl<L> MemDoor<L> {
    /// A door that gives these connections in their order and then ends. The calls with the numbers in
    /// `failing`, from 0, fail and give none.
    pub fn new(links: Items<L>, failing: Items<u64>) -> MemDoor<L>
        ensures { result ≡
            record { links = links; ended = false; broken = false; calls = no_calls failing } }
    {
        MemDoor {
            links: VecDeque::from_vec(links.into_vec()),
            ended: false,
            broken: false,
            calls: Calls::none(failing),
        }
    }

    /// A door whose every call fails.
    pub fn broken(alloc: Global) -> MemDoor<L>
        ensures { result ≡
            record { links = []; ended = false; broken = true; calls = no_calls [] } }
    {
        MemDoor {
            links: VecDeque::new(alloc),
            ended: false,
            broken: true,
            calls: Calls::none(Items::new(alloc)),
        }
    }

    /// How many calls failed.
    pub fn faults(&self) -> u64
        ensures { result ≡ self.now.calls.faults }
    {
        self.calls.faults
    }
}

// Counts a call; answers whether it is to fail, which is then counted as a fault.
fn count(calls: &mut Calls, broken: bool) -> bool
    ensures due { result ≡ (broken || is_due calls.old) }
    ensures counted { calls.new ≡ after_call result calls.old }
    ensures later { calls.old.faults ≤ calls.new.faults }
{
    let due = calls.count();
    if broken && !due {
        calls.fail();
    }
    broken || due
}

impl<L: Link + Send + Drop> Door for MemDoor<L> {
    type L = L;

    ghost faults = { λ door. door.calls.faults };

    ghost ended = { λ door. door.ended };

    fn next(&mut self) -> Result<Option<L>, Failed>
        ensures ended { IfOk result (λ next. IfNone next (self.new.ended ≡ true)) }
        ensures stays { self.old.ended ≡ true → self.new.ended ≡ true }
        ensures link { IfOk result (λ next. IfSome next (λ _. self.new.ended ≡ self.old.ended)) }
        ensures err { OnErr result (self.new.ended ≡ self.old.ended) }
        ensures cause { HasCause self.old.calls.faults self.new.calls.faults result }

        ensures fails { is_err result ≡ next_fails self.old }
        ensures first { IfOk result (λ next. next ≡ slice_get self.old.links 0) }
        ensures after { self.new ≡ after_next self.old }
    {
        if count(&mut self.calls, self.broken) {
            return Err(Failed);
        }
        let link = self.links.pop_front();
        if link.is_none() {
            self.ended = true;
        }
        Ok(link)
    }
}
