ghost use Rattle.std.specs.Prelude.{◌≡◌, IfOk};
ghost use Rattle.std.specs.List.{fold};
ghost use Rattle.lk_params.specs.Findings.{sooner};
ghost use Rattle.lk_explore.specs.PartFindings.{is_name_parameter, item_findings_in, name_findings, part_findings, query_item_findings};

use crate::values::{are_no_words, is_no_text};
use lk_params::{Findings, Order, Owner, find_in_item, scalar};
use lk_read::Item;
use lk_val::NoMemory;
use lk_written::{add_wrong_within, find_in_filters, is_text};
use std::alloc::Global;
use std::slice;

// The faults of a block within the parameter `at` of the object: at each of its parameters what it shows by itself, and
// then what its value shows.
pub(crate) fn find_in_part(
    alloc: Global,
    owner: Owner,
    object: &str,
    at: &str,
    items: &[Item],
    findings: &mut Findings,
) -> Result<(), NoMemory>
    ensures { IfOk result (λ _. findings.new.first
        ≡ fold sooner findings.old.first (part_findings owner object.now at.now items.now)) }
{
    for place in 0..items.len() {
        find_in_item(
            alloc,
            Order::Object,
            owner,
            object,
            Some(at),
            &items[..place],
            &items[place],
            findings,
        )?;
        find_in_value(alloc, owner, object, at, &items[place], findings)?;
    }
    Ok(())
}

fn find_in_value(
    alloc: Global,
    owner: Owner,
    object: &str,
    at: &str,
    item: &Item,
    findings: &mut Findings,
) -> Result<(), NoMemory>
    ensures { IfOk result (λ _. findings.new.first
        ≡ fold sooner findings.old.first (item_findings_in owner object.now at.now item.now)) }
{
    match owner {
        Owner::Query => find_in_query_item(alloc, object, at, item, findings),
        Owner::AlwaysFilter => find_in_filters(
            alloc,
            Order::Object,
            object,
            at,
            slice::from_ref(item),
            findings,
        ),
        _ => find_in_name(alloc, object, at, item, findings),
    }
}

fn find_in_query_item(
    alloc: Global,
    object: &str,
    at: &str,
    item: &Item,
    findings: &mut Findings,
) -> Result<(), NoMemory>
    ensures { IfOk result (λ _. findings.new.first
        ≡ fold sooner findings.old.first (query_item_findings object.now at.now item.now)) }
{
    let name = item.name.as_str();
    if name == "filters" {
        let filters = slice::from_ref(item);
        return find_in_filters(alloc, Order::Object, object, at, filters, findings);
    }
    if name == "dimensions" || name == "measures" {
        let is_wrong = are_no_words(alloc, &item.value)?;
        return add_wrong_within(alloc, Order::Object, object, at, name, is_wrong, findings);
    }
    if name != "timezone" {
        return Ok(());
    }
    let is_wrong = !is_text("UTC", scalar(&item.value));
    add_wrong_within(alloc, Order::Object, object, at, name, is_wrong, findings)
}

fn find_in_name(
    alloc: Global,
    object: &str,
    at: &str,
    item: &Item,
    findings: &mut Findings,
) -> Result<(), NoMemory>
    ensures { IfOk result (λ _. findings.new.first
        ≡ fold sooner findings.old.first (name_findings object.now at.now item.now)) }
{
    let name = item.name.as_str();
    if !is_name_parameter(name) {
        return Ok(());
    }
    let is_wrong = is_no_text(&item.value);
    add_wrong_within(alloc, Order::Object, object, at, name, is_wrong, findings)
}

// Whether the parameter of a materialization or of an access filter has to be a word or a string.
fn is_name_parameter(name: &str) -> bool
    ensures { result ≡ is_name_parameter name.now }
{
    name == "datagroup_trigger" || name == "field" || name == "user_attribute"
}
