ghost use Rattle.std.specs.Prelude.{◌≡◌, IfOk};
ghost use Rattle.lk_val.specs.Years.{IsMomentInYears};
ghost use Rattle.lk_session.specs.Servers.{IsQueried, by_edition};

use crate::acting::{Act, Sent};
use crate::live::Live;
use lk_answer::{Scratch, ask};
use lk_ask::AskFault;
use lk_command_reply::reply_unsaved;
use lk_edition::Edition;
use lk_front::Shelves;
use lk_http::{Request, Target};
use lk_io::Clock;
use lk_listen::Gate;
use lk_reply::reply_refusal;
use lk_shelf::Desk;
use lk_turns::Answerer;
use lk_types::Reply;
use lk_val::{NoMemory, Text};
use std::alloc::Global;
use std::sync::Wait;

/// A worker: the place from which it reads what is shown, who hands on the loads and checks of its connections, the clock of their
/// requests, and the gate that is told of its queries. (lookd)
#[derive(Drop)]
pub struct Worker<'a, R, A: Act<J>, J: Shelves, C: Clock + Drop, G> {
    pub rt: &'a R,
    pub alloc: Global,
    pub desk: Desk<Edition, J>,
    pub act: A,
    pub clock: C,
    pub gate: &'a G,
}

impl<R: Wait, A: Act<J>, J: Shelves, C: Clock + Drop, G: Gate> Answerer<Live>
    for Worker<'_, R, A, J, C, G> {
    ghost use mathlib.Core.List.{IsPrefix};
    ghost use Rattle.lk_live.specs.Lives.{Forgets, Serves, live};
    ghost use Rattle.lk_live.specs.Staying.{unmoved};

    ghost state = { λ worker. live worker.desk (A.failed worker.act) (C.moments worker.clock) };

    ghost serves = { Serves };

    ghost forgets = { Forgets };

    ghost faults = { λ worker. A.failed worker.act };

    ghost keeps = { λ old new. IsPrefix old.desk.seen new.desk.seen };

    fn answer(&mut self, request: Request) -> Result<Reply, NoMemory> {
        let now = self.clock.now();
        match &request.target {
            Target::Query(explore) => {
                let edition = self.desk.current()?;
                self.gate.begin(edition.number());
                let reply = query(self.alloc, &*edition, &request, explore, now);
                self.gate.end();
                reply
            }
            Target::Load(..) | Target::Check => {
                let sent = self.act.send(
                    self.rt,
                    &mut self.desk,
                    &request.user,
                    &request.target,
                    &request.body,
                    now,
                );
                match sent {
                    Sent::Done(reply) => Ok(reply),
                    Sent::Failed => reply_unsaved(self.alloc),
                    Sent::NoMemory => Err(NoMemory),
                }
            }
        }
    }

    ghost stays = { unmoved };
}

// The reply to a query on an edition.
fn query(
    alloc: Global,
    edition: &Edition,
    request: &Request,
    explore: &Text,
    now: i64,
) -> Result<Reply, NoMemory>
    requires { IsMomentInYears now }
    ensures { IfOk result (IsQueried by_edition edition.now request.now.user explore.now request.now.body now) }
{
    let mut scratch = Scratch::new();
    let asked = ask(
        alloc,
        edition,
        &request.user,
        explore,
        request.body.as_slice(),
        now,
        false,
        &mut scratch,
    );
    match asked {
        Ok(reply) => Ok(reply),
        Err(AskFault::NoMemory) => Err(NoMemory),
        Err(fault) => reply_refusal(alloc, &fault),
    }
}
