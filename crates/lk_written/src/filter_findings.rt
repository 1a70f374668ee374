ghost use Rattle.std.specs.Prelude.{◌≡◌, [], not, if◌then◌else◌, codes, IfOk};
ghost use Rattle.std.specs.List.{flat_map, fold};
ghost use Rattle.lk_val.specs.Texts.{is_same_text};
ghost use Rattle.lk_read.specs.EntryOutline.{entries_of};
ghost use Rattle.lk_params.specs.Findings.{sooner};
ghost use Rattle.lk_params.specs.Known.{along};
ghost use Rattle.lk_written.specs.Values.{filters_at, is_pair};
ghost use Rattle.lk_written.specs.ValueFindings.{wrong};
ghost use Rattle.lk_written.specs.FilterFindings.{filters_findings, filters_wrong, half_findings, is_no_half, older_findings, too_long};

use crate::filters::{filters_at, is_pair};
use crate::value_findings::add_wrong_within;
use crate::values::is_missing;
use lk_filter::LONGEST_FILTER;
use lk_params::{Findings, Number, Order, Owner, add_if, find_in_item, parameters_of, scalar};
use lk_read::{Entry, Item, Node};
use lk_val::{NoMemory, Text};
use std::alloc::Global;

/// The faults of a block's filters: another value than pairs or an older block with `field` and `value` (N14), other
/// parameters in an older block (N1), and texts of over 4,096 bytes (N15). `object` is the object's name, and `at` its
/// parameter in which they stand. (Looker, LookML reference: filters)
pub fn find_in_filters(
    alloc: Global,
    order: Order,
    object: &str,
    at: &str,
    items: &[Item],
    findings: &mut Findings,
) -> Result<(), NoMemory>
    ensures { IfOk result (λ _. findings.new.first
        ≡ fold sooner findings.old.first (filters_findings order object.now at.now items.now)) }
{
    find_wrong(alloc, order, object, at, items, findings)?;
    let filters = filters_at(alloc, items)?;
    find_long(alloc, order, at, filters.as_slice(), findings)
}

fn find_wrong(
    alloc: Global,
    order: Order,
    object: &str,
    at: &str,
    items: &[Item],
    findings: &mut Findings,
) -> Result<(), NoMemory>
    ensures { IfOk result (λ _. findings.new.first ≡ fold sooner findings.old.first
        (flat_map (λ item. if is_same_text item.name (codes "filters") then filters_wrong order object.now at.now item.value else []) items.now)) }
{
    for item in items {
        if item.name.as_str() == "filters" {
            find_in_value(alloc, order, object, at, &item.value, findings)?;
        }
    }
    Ok(())
}

// The faults of one value of `filters`.
fn find_in_value(
    alloc: Global,
    order: Order,
    object: &str,
    at: &str,
    value: &Node,
    findings: &mut Findings,
) -> Result<(), NoMemory>
    ensures { IfOk result (λ _. findings.new.first
        ≡ fold sooner findings.old.first (filters_wrong order object.now at.now value.now)) }
{
    match value {
        Node::List(entries) => find_in_entries(
            alloc,
            order,
            object,
            at,
            entries.as_slice(),
            findings,
        ),
        Node::Block(None, inner) => {
            find_in_older(alloc, order, object, at, parameters_of(inner), findings)
        }
        _ => add_wrong_within(alloc, order, object, at, "filters", true, findings),
    }
}

fn find_in_entries(
    alloc: Global,
    order: Order,
    object: &str,
    at: &str,
    entries: &[Entry],
    findings: &mut Findings,
) -> Result<(), NoMemory>
    ensures { IfOk result (λ _. findings.new.first ≡ fold sooner findings.old.first
        (flat_map (λ e. wrong order object.now at.now (codes "filters") (not (is_pair e))) (entries_of entries.now))) }
{
    for entry in entries {
        add_wrong_within(
            alloc,
            order,
            object,
            at,
            "filters",
            !is_pair(entry),
            findings,
        )?;
    }
    Ok(())
}

// The faults of an older block.
fn find_in_older(
    alloc: Global,
    order: Order,
    object: &str,
    at: &str,
    items: &[Item],
    findings: &mut Findings,
) -> Result<(), NoMemory>
    ensures { IfOk result (λ _. findings.new.first
        ≡ fold sooner findings.old.first (older_findings order object.now at.now items.now)) }
{
    find_in_halves(alloc, order, object, at, items, findings)?;
    let (no_field, no_value) = (is_missing("field", items), is_missing("value", items));
    add_wrong_within(alloc, order, object, at, "field", no_field, findings)?;
    add_wrong_within(alloc, order, object, at, "value", no_value, findings)
}

fn find_in_halves(
    alloc: Global,
    order: Order,
    object: &str,
    at: &str,
    items: &[Item],
    findings: &mut Findings,
) -> Result<(), NoMemory>
    ensures { IfOk result (λ _. findings.new.first ≡ fold sooner findings.old.first
        (along (half_findings order object.now at.now) [] items.now)) }
{
    for place in 0..items.len() {
        let (before, item) = (&items[..place], &items[place]);
        find_in_half(alloc, order, object, at, before, item, findings)?;
    }
    Ok(())
}

fn find_in_half(
    alloc: Global,
    order: Order,
    object: &str,
    at: &str,
    before: &[Item],
    item: &Item,
    findings: &mut Findings,
) -> Result<(), NoMemory>
    ensures { IfOk result (λ _. findings.new.first ≡ fold sooner findings.old.first
        (half_findings order object.now at.now before.now item.now)) }
{
    find_in_item(
        alloc,
        order,
        Owner::Filters,
        object,
        Some(at),
        before,
        item,
        findings,
    )?;
    let name = item.name.as_str();
    add_wrong_within(alloc, order, object, at, name, is_no_half(item), findings)
}

fn is_no_half(item: &Item) -> bool
    ensures { result ≡ is_no_half item.now }
{
    let name = item.name.as_str();
    (name == "field" || name == "value") && scalar(&item.value).is_none()
}

fn find_long(
    alloc: Global,
    order: Order,
    at: &str,
    filters: &[(Text, Text)],
    findings: &mut Findings,
) -> Result<(), NoMemory>
    ensures { IfOk result (λ _. findings.new.first
        ≡ fold sooner findings.old.first (flat_map (too_long order at.now) filters.now)) }
{
    for filter in filters {
        let is_long = filter.1.len() > LONGEST_FILTER as usize;
        add_if(
            alloc,
            is_long,
            order,
            Number::N15,
            at,
            "filter",
            "",
            findings,
        )?;
    }
    Ok(())
}
