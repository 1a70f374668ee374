ghost use Rattle.std.specs.Prelude.{◌≡◌, IfOk, option_map};
ghost use Rattle.std.specs.List.{flat_map, fold};
ghost use Rattle.lk_params.specs.Findings.{sooner};
ghost use Rattle.lk_scope.specs.Told.{IsTold};
ghost use Rattle.lk_explore_faults.specs.ExploreTexts.{dimension_meant, reference_findings, text_findings};

use lk_fields::{Found, Sort, Writer, found_in};
use lk_formulas::column_named;
use lk_objects::{Code, Reference};
use lk_params::{Findings, Number, Order, add_if};
use lk_scope::{ScopeFields, full_name};
use lk_val::NoMemory;
use std::alloc::Global;

// The faults of the names in an expression of the explore's own text, at a parameter of the object.
pub(crate) fn find_in_text(
    alloc: Global,
    fields: &ScopeFields,
    object: &str,
    at: &str,
    code: &Code,
    findings: &mut Findings,
) -> Result<(), NoMemory>
    requires { IsTold fields.now }
    ensures { IfOk result (λ _. findings.new.first ≡ fold sooner findings.old.first
        (text_findings fields.now.schema.now fields.now.views.now fields.now.scope.now object.now at.now code.now)) }
{
    match code {
        Code::Expr(written) => {
            let references = written.references.as_slice();
            find_in_references(alloc, fields, object, at, references, findings)
        }
        _ => Ok(()),
    }
}

fn find_in_references(
    alloc: Global,
    fields: &ScopeFields,
    object: &str,
    at: &str,
    references: &[Reference],
    findings: &mut Findings,
) -> Result<(), NoMemory>
    requires { IsTold fields.now }
    ensures { IfOk result (λ _. findings.new.first ≡ fold sooner findings.old.first
        (flat_map (reference_findings fields.now.schema.now fields.now.views.now fields.now.scope.now object.now at.now) references.now)) }
{
    for reference in references {
        find_in_reference(alloc, fields, object, at, reference, findings)?;
    }
    Ok(())
}

fn find_in_reference(
    alloc: Global,
    fields: &ScopeFields,
    object: &str,
    at: &str,
    reference: &Reference,
    findings: &mut Findings,
) -> Result<(), NoMemory>
    requires { IsTold fields.now }
    ensures { IfOk result (λ _. findings.new.first ≡ fold sooner findings.old.first
        (reference_findings fields.now.schema.now fields.now.views.now fields.now.scope.now object.now at.now reference.now)) }
{
    let order = Order::Object;
    match reference {
        Reference::Own(name) => {
            let name = name.as_str();
            let so = dimension_meant(fields, None, name)?.is_none();
            add_if(alloc, so, order, Number::N3, at, object, name, findings)
        }
        Reference::Of(view, name) => {
            let (view, name) = (view.as_str(), name.as_str());
            let so = dimension_meant(fields, Some(view), name)?.is_none();
            let whole = full_name(alloc, view, name)?;
            let whole = whole.as_str();
            add_if(alloc, so, order, Number::N3, at, object, whole, findings)
        }
        Reference::Column(name) => {
            let name = name.as_str();
            let so = column_named(fields.schema, fields.views, fields.scope, 0, name).is_none();
            add_if(alloc, so, order, Number::N5, at, object, name, findings)
        }
    }
}

// The dimension of the explore that a reference means.
fn dimension_meant(
    fields: &ScopeFields,
    view: Option<&str>,
    name: &str,
) -> Result<Option<Found>, NoMemory>
    requires { IsTold fields.now }
    ensures { IfOk result (λ found. found
        ≡ dimension_meant fields.now.views.now fields.now.scope.now (option_map (λ v. v.now) view.entry) name.now) }
{
    let writer = Writer::Explore;
    let found = found_in(
        fields.views,
        fields.scope,
        writer,
        view,
        name,
        Sort::Dimension,
    )?;
    Ok(fields.if_exists(found))
}
