ghost use Rattle.std.specs.Prelude.{◌≡◌, ◌≤◌, ℕ, length};
ghost use mathlib.Core.List.{IsPrefix};
ghost use Rattle.lk_val.specs.Years.{IsMomentInYears};
ghost use Rattle.lk_io.specs.Causes.{Rose};
ghost use Rattle.lk_types.specs.declared.answer.Reply.{Reply};
ghost use Rattle.lk_bureau.specs.Outcomes.{IsCommand};
ghost use Rattle.lk_bureau.specs.Told.{IsTold};
ghost use Rattle.lk_live.specs.declared.acting.Sent.TheVariants as sent;

use lk_edition::Edition;
use lk_front::Shelves;
use lk_http::Target;
use lk_shelf::Desk;
use lk_types::Reply;
use lk_val::{Bytes, Text};
use std::sync::Wait;

/// What a load or a check that was handed on came to.
#[derive(Drop)]
pub enum Sent {
    /// Its reply, refusals among them.
    Done(Reply),
    /// The store could not save it.
    Failed,
    /// Memory was refused.
    NoMemory,
}

/// Who hands on the loads and checks of a connection: the request handler of the writer. (lookd)
pub trait Act<J: Shelves>: Drop {
    /// How many loads and checks could not be saved.
    ghost failed: { Self → ℕ };

    /// Hands on a load or a check at a moment, in seconds from 1970-01-01 00:00:00 UTC. Where it is done, the desk has learnt the
    /// publish of what it came to. `Failed` comes only where the count rose. Whatever it answers, the desk has seen all that it had,
    /// and its looks stay. It may wait for the writer and for readers.
    fn send<R: Wait>(
        &mut self,
        rt: &R,
        desk: &mut Desk<Edition, J>,
        user: &Text,
        target: &Target,
        body: &Bytes,
        now: i64,
    ) -> Sent
        requires command { IsCommand target.now }
        requires moment { IsMomentInYears now }
        ensures done { (reply : Reply) → result ≡ sent.Done reply
            → IsTold (length desk.old.seen) user.now target.now body.now now reply desk.new.seen }
        ensures cause { result ≡ sent.Failed → Rose (failed self.old) (failed self.new) }
        ensures counts { failed self.old ≤ failed self.new }
        ensures later { IsPrefix desk.old.seen desk.new.seen }
        ensures looks { desk.new.looks ≡ desk.old.looks };
}
