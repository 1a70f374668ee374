ghost use Rattle.std.specs.Prelude.{◌≡◌, codes, IfOk, not, is_some, pos};
ghost use Rattle.std.specs.List.{fold};
ghost use Rattle.std.specs.Option.{option_and_then, option_map};
ghost use Rattle.lk_params.specs.Findings.{sooner, soonest};
ghost use Rattle.lk_params.specs.Parameters.{items_of};
ghost use Rattle.lk_written.specs.Values.{is_wrong_at};
ghost use Rattle.lk_datagroup.specs.Datagroups.{datagroup_findings, datagroup_of, interval_at, interval_in, trigger_at, watched_by, wrong_at};

use crate::interval::interval_of;
use crate::trigger::trigger_of;
use lk_objects::DeclaredDatagroup;
use lk_params::{
    Finding, Findings, Order, Owner, code, find_unknown, last_named, parameters_of, scalar,
};
use lk_read::{Item, Node, Tree};
use lk_types::{Schema, Trigger};
use lk_val::{NoMemory, Text};
use lk_written::add_wrong;
use std::alloc::Global;

/// A datagroup, read from its parameters: what it watches and its interval in seconds, with the first fault that these show.
/// (Looker, LookML reference: datagroup)
pub fn read_datagroup(
    alloc: Global,
    schema: &Schema,
    name: &Text,
    tree: &Tree,
) -> Result<DeclaredDatagroup, NoMemory>
    ensures { IfOk result (λ datagroup. datagroup ≡ datagroup_of schema.now name.now (items_of tree.now)) }
{
    let items = parameters_of(tree);
    Ok(DeclaredDatagroup {
        name: name.copy(alloc)?,
        trigger: trigger_at(alloc, schema, items)?,
        interval: interval_at(items),
        first: first_of_datagroup(alloc, schema, name.as_str(), items)?,
    })
}

fn trigger_at(alloc: Global, schema: &Schema, items: &[Item]) -> Result<Option<Trigger>, NoMemory>
    ensures { IfOk result (λ trigger. trigger ≡ trigger_at schema.now items.now) }
{
    match last_named("sql_trigger", items) {
        None => Ok(None),
        Some(item) => watched_by(alloc, schema, &item.value),
    }
}

// What the code of a trigger watches.
fn watched_by(alloc: Global, schema: &Schema, value: &Node) -> Result<Option<Trigger>, NoMemory>
    ensures { IfOk result (λ trigger. trigger ≡ watched_by schema.now value.now) }
{
    match code(value) {
        None => Ok(None),
        Some(text) => trigger_of(alloc, schema, text.as_bytes()),
    }
}

fn interval_at(items: &[Item]) -> Option<i64>
    ensures { result ≡ option_map pos (interval_at items.now) }
{
    interval_in(&last_named("interval_trigger", items)?.value)
}

// The interval of a word or a string, in seconds.
fn interval_in(value: &Node) -> Option<i64>
    ensures { result ≡ option_map pos (interval_in value.now) }
{
    interval_of(scalar(value)?.as_str())
}

fn first_of_datagroup(
    alloc: Global,
    schema: &Schema,
    name: &str,
    items: &[Item],
) -> Result<Option<Finding>, NoMemory>
    ensures { IfOk result (λ first. first ≡ soonest (datagroup_findings schema.now name.now items.now)) }
{
    let mut findings = Findings::new();
    find_in_datagroup(alloc, schema, name, items, &mut findings)?;
    Ok(findings.first)
}

fn find_in_datagroup(
    alloc: Global,
    schema: &Schema,
    name: &str,
    items: &[Item],
    findings: &mut Findings,
) -> Result<(), NoMemory>
    ensures { IfOk result (λ _. findings.new.first
        ≡ fold sooner findings.old.first (datagroup_findings schema.now name.now items.now)) }
{
    find_unknown(
        alloc,
        Order::Object,
        Owner::Datagroup,
        name,
        None,
        items,
        findings,
    )?;
    let is_wrong = watches_nothing(alloc, schema, items)?;
    add_wrong_at(alloc, name, "sql_trigger", is_wrong, findings)?;
    let is_wrong = has_no_interval(items);
    add_wrong_at(alloc, name, "interval_trigger", is_wrong, findings)
}

// Adds that a parameter of the datagroup has a value outside the profile, where the test says so.
fn add_wrong_at(
    alloc: Global,
    name: &str,
    parameter: &str,
    so: bool,
    findings: &mut Findings,
) -> Result<(), NoMemory>
    ensures { IfOk result (λ _. findings.new.first
        ≡ fold sooner findings.old.first (wrong_at name.now parameter.now so)) }
{
    add_wrong(alloc, Order::Object, name, parameter, so, findings)
}

fn watches_nothing(alloc: Global, schema: &Schema, items: &[Item]) -> Result<bool, NoMemory>
    ensures { IfOk result (λ so. so
        ≡ is_wrong_at (λ value. not (is_some (watched_by schema.now value))) (codes "sql_trigger") items.now) }
{
    match last_named("sql_trigger", items) {
        None => Ok(false),
        Some(item) => Ok(watched_by(alloc, schema, &item.value)?.is_none()),
    }
}

fn has_no_interval(items: &[Item]) -> bool
    ensures { result
        ≡ is_wrong_at (λ value. not (is_some (interval_in value))) (codes "interval_trigger") items.now }
{
    match last_named("interval_trigger", items) {
        None => false,
        Some(item) => interval_in(&item.value).is_none(),
    }
}
