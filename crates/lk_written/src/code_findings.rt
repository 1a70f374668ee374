ghost use Rattle.std.specs.Prelude.{◌≡◌, IfOk};
ghost use Rattle.std.specs.List.{fold};
ghost use Rattle.lk_params.specs.Findings.{sooner};
ghost use Rattle.lk_written.specs.CodeFindings.{call_findings, code_findings};

use lk_objects::Code;
use lk_params::{Finding, Findings, Number, Order};
use lk_val::NoMemory;
use std::alloc::Global;

/// What is wrong with the text of an expression at a parameter: its syntax (E1), or a call (E2), at the place in the text.
/// `object` is the object's name, as `view.field`.
pub fn find_in_code(
    alloc: Global,
    order: Order,
    object: &str,
    parameter: &str,
    code: &Code,
    findings: &mut Findings,
) -> Result<(), NoMemory>
    ensures { IfOk result (λ _. findings.new.first
        ≡ fold sooner findings.old.first (code_findings order object.now parameter.now code.now)) }
{
    match code {
        Code::Syntax(place) => {
            let number = Number::E1;
            findings.add(Finding::placed(alloc, order, number, parameter, *place, object)?);
            Ok(())
        }
        Code::Expr(written) => {
            find_call(
                alloc,
                order,
                object,
                parameter,
                written.unknown_call,
                findings,
            )
        }
        Code::Number(written) => {
            find_call(
                alloc,
                order,
                object,
                parameter,
                written.unknown_call,
                findings,
            )
        }
        Code::Absent | Code::Liquid => Ok(()),
    }
}

// A call that is unknown, where there is one.
fn find_call(
    alloc: Global,
    order: Order,
    object: &str,
    parameter: &str,
    unknown_call: Option<u32>,
    findings: &mut Findings,
) -> Result<(), NoMemory>
    ensures { IfOk result (λ _. findings.new.first
        ≡ fold sooner findings.old.first (call_findings order object.now parameter.now unknown_call)) }
{
    if let Some(place) = unknown_call {
        findings.add(Finding::placed(alloc, order, Number::E2, parameter, place, object)?);
    }
    Ok(())
}
