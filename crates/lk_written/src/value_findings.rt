ghost use Rattle.std.specs.Prelude.{◌≡◌, IfOk};
ghost use Rattle.std.specs.List.{fold};
ghost use Rattle.lk_params.specs.Findings.{sooner};
ghost use Rattle.lk_written.specs.ValueFindings.{wrong};

use lk_params::{Findings, Number, Order, add_if};
use lk_val::NoMemory;
use std::alloc::Global;

/// Adds that a parameter of the object has a value outside the profile, or is missing, where the test says so (N14).
pub fn add_wrong(
    alloc: Global,
    order: Order,
    object: &str,
    parameter: &str,
    so: bool,
    findings: &mut Findings,
) -> Result<(), NoMemory>
    ensures { IfOk result (λ _. findings.new.first
        ≡ fold sooner findings.old.first (wrong order object.now parameter.now parameter.now so)) }
{
    add_wrong_within(alloc, order, object, parameter, parameter, so, findings)
}

/// Adds the same of a parameter that stands within one of the object, as `field` within `filters`; `at` is the object's.
pub fn add_wrong_within(
    alloc: Global,
    order: Order,
    object: &str,
    at: &str,
    parameter: &str,
    so: bool,
    findings: &mut Findings,
) -> Result<(), NoMemory>
    ensures { IfOk result (λ _. findings.new.first
        ≡ fold sooner findings.old.first (wrong order object.now at.now parameter.now so)) }
{
    add_if(
        alloc,
        so,
        order,
        Number::N14,
        at,
        object,
        parameter,
        findings,
    )
}
