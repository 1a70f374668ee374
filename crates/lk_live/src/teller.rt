ghost use Rattle.std.specs.Prelude.{◌≡◌};

use crate::acting::{Act, Sent};
use left_right::Absorb;
use lk_bureau::{Acted, Bureau, act};
use lk_edition::Edition;
use lk_front::Shelves;
use lk_http::Target;
use lk_ledger::Keeper;
use lk_shelf::{Desk, Stand};
use lk_val::{Bytes, Text};
use std::alloc::Global;
use std::sync::{Mutex, Wait};

/// The `Act` of the program. It holds the lock round the writer for one load or check, and learns the note of what that came to once
/// it has let go of it. Its count is of the sends that could not be saved. (lookd)
pub struct Teller<'a, K: Keeper + Drop, J: Shelves, S: Wait + Drop>
where
    Stand<Edition, J>: Absorb<Stand<Edition, J>, State = u64>,
{
    alloc: Global,
    bureau: &'a Mutex<Bureau<K, J, S>>,
    failed: u64,
}

impl<K: Keeper + Drop, J: Shelves, S: Wait + Drop> Drop for Teller<'_, K, J, S> {
    fn drop(self) {
        let Self {
            alloc: _alloc,
            bureau: _bureau,
            failed: _failed,
        } = self;
    }
}

impl<'a, K: Keeper + Drop, J: Shelves, S: Wait + Drop> Teller<'a, K, J, S> {
    /// An `Act` over this writer whose count is 0. It takes no memory.
    pub fn new(alloc: Global, bureau: &'a Mutex<Bureau<K, J, S>>) -> Teller<'a, K, J, S>
        ensures { result.failed ≡ 0 }
    {
        Teller {
            alloc,
            bureau,
            failed: 0,
        }
    }
}

impl<K: Keeper + Drop, J: Shelves, S: Wait + Drop> Act<J> for Teller<'_, K, J, S> {
    ghost failed = { λ teller. teller.failed };

    fn send<R: Wait>(
        &mut self,
        rt: &R,
        desk: &mut Desk<Edition, J>,
        user: &Text,
        target: &Target,
        body: &Bytes,
        now: i64,
    ) -> Sent {
        let least = desk.len();
        let acted = act(
            rt,
            self.alloc,
            &mut *self.bureau.lock(rt),
            least,
            user,
            target,
            body,
            now,
        );
        match acted {
            Acted::Done(reply, note) => {
                desk.learn(note);
                Sent::Done(reply)
            }
            Acted::Failed => {
                self.failed = self.failed.saturating_add(1);
                Sent::Failed
            }
            Acted::NoMemory => Sent::NoMemory,
        }
    }
}
