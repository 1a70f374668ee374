ghost use Rattle.std.specs.Prelude.{◌≡◌, [], IfOk, codes};
ghost use Rattle.lk_params.specs.Picking.{first_in, first_along};
ghost use Rattle.lk_merge.specs.MergeFaults.{fault_at, declared_twice, refines_final, unknown_base, refers_nowhere};

use crate::by_name::Declared;
use crate::contributors::{extends_of, is_declared};
use crate::declaration::Declaration;
use crate::objects::is_final;
use lk_overlay::Kind;
use lk_val::{FaultLine, NoMemory, Text};
use std::alloc::Global;

/// The first declaration of a name that is declared before.
pub fn find_twice(alloc: Global, all: &[Declaration]) -> Result<Option<FaultLine>, NoMemory>
    ensures { IfOk result (λ fault. fault ≡ first_along declared_twice [] all.now) }
{
    for place in 0..all.len() {
        let d = &all[place];
        if !d.refines && is_declared(&all[..place], d.kind, &d.name) {
            return Ok(Some(fault_at(alloc, "M4", "", d)?));
        }
    }
    Ok(None)
}

/// The first refinement of an object that is final.
pub fn find_final(alloc: Global, all: &Declared<'_>) -> Result<Option<FaultLine>, NoMemory>
    ensures { IfOk result (λ fault. fault ≡ first_in (refines_final all.now.them.now) all.now.them.now) }
{
    for d in all.as_slice() {
        if d.refines
            && is_declared(all.as_slice(), d.kind, &d.name)
            && is_final(alloc, all, d.kind, &d.name)?
        {
            return Ok(Some(fault_at(alloc, "M5", "", d)?));
        }
    }
    Ok(None)
}

/// The first declaration or refinement that refers to an object which nobody declares.
pub fn find_nowhere(alloc: Global, all: &[Declaration]) -> Result<Option<FaultLine>, NoMemory>
    ensures { IfOk result (λ fault. fault ≡ first_in (refers_nowhere all.now) all.now) }
{
    for d in all {
        if let Some(fault) = refers_nowhere(alloc, all, d)? {
            return Ok(Some(fault));
        }
    }
    Ok(None)
}

fn refers_nowhere(
    alloc: Global,
    all: &[Declaration],
    d: &Declaration,
) -> Result<Option<FaultLine>, NoMemory>
    ensures { IfOk result (λ fault. fault ≡ refers_nowhere all.now d.now) }
{
    if d.refines && !is_declared(all, d.kind, &d.name) {
        return Ok(Some(fault_at(alloc, "M2", "", d)?));
    }
    if d.kind == Kind::Datagroup {
        return Ok(None);
    }
    let bases = extends_of(alloc, d)?;
    unknown_base(alloc, all, d, bases.as_slice())
}

fn unknown_base(
    alloc: Global,
    all: &[Declaration],
    d: &Declaration,
    bases: &[Text],
) -> Result<Option<FaultLine>, NoMemory>
    ensures { IfOk result (λ fault. fault ≡ first_in (unknown_base all.now d.now) bases.now) }
{
    for base in bases {
        if !is_declared(all, d.kind, base) {
            return Ok(Some(fault_at(alloc, "M2", base.as_str(), d)?));
        }
    }
    Ok(None)
}

/// The line of a fault at a declaration, with another name where there is one.
pub fn fault_at(
    alloc: Global,
    code: &str,
    base: &str,
    d: &Declaration,
) -> Result<FaultLine, NoMemory>
    ensures { IfOk result (λ fault. fault ≡ fault_at code.now base.now d.now) }
{
    Ok(FaultLine {
        code: Text::from_str(alloc, code)?,
        path: d.path.copy(alloc)?,
        place: d.place,
        name: d.name.copy(alloc)?,
        other: Text::from_str(alloc, base)?,
    })
}
