ghost use Rattle.std.specs.Prelude.{◌≡◌, IfOk, codes};
ghost use Rattle.serde_json.specs.View.{view};
ghost use Rattle.lk_types.specs.Printing.{value_text};
ghost use Rattle.lk_reply.specs.Refusals.{access_refusal, bare_refusal, conflict_refusal, filter_refusal, limit_refusal, named_refusal, refusal_of, refusal_text};

use lk_ask::AskFault;
use lk_types::{Shape, print_cell};
use lk_val::{Bytes, Cell, NoMemory, Text, Value as TableValue};
use serde_json::{Value, json};
use std::alloc::Global;

/// The refusal of a query in compact JSON: `error` with its code, and beside it what it is about: `explore`, `user`,
/// `field`, `attribute`, `place`, `measure`, `limit` and `key`, in the order of their bytes. Places count bytes from 0, and
/// a key is printed as a cell. (lookd)
#[tactic(auto, unfolding(crate::specs::Refusals::refusal_text))]
pub fn print_refusal(alloc: Global, fault: &AskFault) -> Result<Bytes, NoMemory>
    ensures { IfOk result (λ text. text ≡ refusal_text fault.now) }
{
    let value = refusal_of(alloc, fault)?;
    let text = value.to_string(alloc)?;
    Ok(Bytes::from_slice(alloc, text.as_bytes())?)
}

fn refusal_of(alloc: Global, fault: &AskFault) -> Result<Value, NoMemory>
    ensures { IfOk result (λ value. view value ≡ refusal_of fault.now) }
{
    match fault {
        AskFault::Q1(explore) => unknown_explore(alloc, explore),
        AskFault::Q2(user) => unknown_user(alloc, user),
        AskFault::Q3 => bare(alloc, "Q3"),
        AskFault::Q4(field) => unknown_field(alloc, field),
        AskFault::Q5 { field, attribute } => lacking_attribute(alloc, field, attribute),
        AskFault::Q6 { field, place } => wrong_filter(alloc, field, *place),
        AskFault::Q7(measure) => keyless_measure(alloc, measure),
        AskFault::Q8(limit) => wrong_limit(alloc, *limit),
        AskFault::Q9 { measure, key } => conflict(alloc, measure, key),
        AskFault::Q10 => bare(alloc, "Q10"),
        AskFault::NoMemory => bare(alloc, "memory"),
    }
}

fn bare(alloc: Global, code: &str) -> Result<Value, NoMemory>
    ensures { IfOk result (λ value. view value ≡ bare_refusal code.now) }
{
    Ok(json!(in alloc; {"error": code})?)
}

fn unknown_explore(alloc: Global, explore: &Text) -> Result<Value, NoMemory>
    ensures { IfOk result (λ value. view value ≡ named_refusal (codes "Q1") (codes "explore") explore.now) }
{
    Ok(json!(in alloc; {"error": "Q1", "explore": explore.as_str()})?)
}

fn unknown_user(alloc: Global, user: &Text) -> Result<Value, NoMemory>
    ensures { IfOk result (λ value. view value ≡ named_refusal (codes "Q2") (codes "user") user.now) }
{
    Ok(json!(in alloc; {"error": "Q2", "user": user.as_str()})?)
}

fn unknown_field(alloc: Global, field: &Text) -> Result<Value, NoMemory>
    ensures { IfOk result (λ value. view value ≡ named_refusal (codes "Q4") (codes "field") field.now) }
{
    Ok(json!(in alloc; {"error": "Q4", "field": field.as_str()})?)
}

fn lacking_attribute(alloc: Global, field: &Text, attribute: &Text) -> Result<Value, NoMemory>
    ensures { IfOk result (λ value. view value ≡ access_refusal field.now attribute.now) }
{
    Ok(json!(in alloc; {"attribute": attribute.as_str(), "error": "Q5", "field": field.as_str()})?)
}

fn wrong_filter(alloc: Global, field: &Text, place: u32) -> Result<Value, NoMemory>
    ensures { IfOk result (λ value. view value ≡ filter_refusal field.now place) }
{
    Ok(json!(in alloc; {"error": "Q6", "field": field.as_str(), "place": place})?)
}

fn keyless_measure(alloc: Global, measure: &Text) -> Result<Value, NoMemory>
    ensures { IfOk result (λ value. view value ≡ named_refusal (codes "Q7") (codes "measure") measure.now) }
{
    Ok(json!(in alloc; {"error": "Q7", "measure": measure.as_str()})?)
}

fn wrong_limit(alloc: Global, limit: i64) -> Result<Value, NoMemory>
    ensures { IfOk result (λ value. view value ≡ limit_refusal limit) }
{
    Ok(json!(in alloc; {"error": "Q8", "limit": limit})?)
}

fn conflict(alloc: Global, measure: &Text, key: &TableValue) -> Result<Value, NoMemory>
    ensures { IfOk result (λ value. view value ≡ conflict_refusal measure.now (value_text key.now)) }
{
    let key = print_cell(alloc, &Cell::Value(key.copy(alloc)?), &Shape::Plain)?;
    Ok(json!(in alloc; {"error": "Q9", "key": key.as_str(), "measure": measure.as_str()})?)
}
