ghost use Rattle.std.specs.Prelude.{◌≡◌, IfOk, IfSome};
ghost use Rattle.lk_serve.specs.Checks.{IsChecked, TellsSome};
ghost use Rattle.lk_serve.specs.Replies.{IsTold};
ghost use Rattle.lk_serve.specs.Stops.{HasStopCause, NeverStops};
ghost use Rattle.lk_serve.specs.declared.stops.Stop.{Stop};

use crate::replies::{Reply, fault_found, no_fault};
use crate::stops::Stop;
use lk_include::ProjectFault;
use lk_io::Files;
use lk_resolve::load;
use std::alloc::Global;

/// The reply to `check`: `ok` where the folder's files are a project without a fault, and else the line of its first fault.
#[tactic(auto, using(crate::proofs::RunLaws::is_checked, crate::proofs::RunLaws::tells_some))]
pub fn check<F: Files>(alloc: Global, files: &mut F) -> Result<Reply, Stop>
    ensures reply { IfOk result (λ reply. IfSome (F.told files.old) (λ told. IsChecked told reply)) }
    ensures told { IfOk result TellsSome }
    ensures status { IfOk result (λ reply. IsTold reply.status) }
    ensures same { F.told files.new ≡ F.told files.old }
    ensures cause { HasStopCause Stop.Files (F.faults files.old) (F.faults files.new) result }
    ensures input { NeverStops Stop.Input result }
    ensures store { NeverStops Stop.Store result }
{
    match load(alloc, files) {
        Ok(_) => Ok(no_fault(alloc)?),
        Err(ProjectFault::Model(line)) => Ok(fault_found(alloc, &line)?),
        Err(ProjectFault::Failed) => Err(Stop::Files),
        Err(ProjectFault::NoMemory) => Err(Stop::Memory),
    }
}
