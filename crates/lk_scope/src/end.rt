ghost use Rattle.std.specs.Prelude.{◌≡◌, None, IfOk};
ghost use Rattle.lk_params.specs.Findings.{first_line};
ghost use Rattle.lk_scope.specs.Pieces.{IsTested};

use lk_params::{Finding, Findings};
use lk_val::{FaultLine, ModelFault, NoMemory};
use std::alloc::Global;

/// The findings of an object of which the first fault of its own parameters is known.
pub fn known_findings(alloc: Global, first: &Option<Finding>) -> Result<Findings, NoMemory>
    ensures { IfOk result (λ findings. findings.first ≡ first.now) }
{
    let first = match first {
        None => None,
        Some(found) => Some(copy_finding(alloc, found)?),
    };
    Ok(Findings { first })
}

fn copy_finding(alloc: Global, found: &Finding) -> Result<Finding, NoMemory>
    ensures { IfOk result (λ copied. copied ≡ found.now) }
{
    Ok(Finding {
        rank: found.rank,
        parameter: found.parameter.copy(alloc)?,
        line: copy_line(alloc, &found.line)?,
    })
}

/// Another line that is equal.
pub fn copy_line(alloc: Global, line: &FaultLine) -> Result<FaultLine, NoMemory>
    ensures { IfOk result (λ copied. copied ≡ line.now) }
{
    Ok(FaultLine {
        code: line.code.copy(alloc)?,
        path: line.path.copy(alloc)?,
        place: line.place,
        name: line.name.copy(alloc)?,
        other: line.other.copy(alloc)?,
    })
}

/// Ends the test of an object: with its first fault, if it has one. (lookd)
pub fn end_test(findings: Findings) -> Result<(), ModelFault>
    ensures { IsTested result (first_line findings.first) }
{
    match findings.into_line() {
        None => Ok(()),
        Some(line) => Err(ModelFault::Fault(line)),
    }
}
