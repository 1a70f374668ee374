ghost use Rattle.std.specs.Prelude.{◌≡◌, not, ◌&&◌, IfOk, Some, is_some};
ghost use Rattle.std.specs.List.{fold};
ghost use Rattle.lk_params.specs.Findings.{sooner};
ghost use Rattle.lk_params.specs.Known.{item_findings};
ghost use Rattle.lk_params.specs.Values.{scalar};
ghost use Rattle.lk_val.specs.Texts.{is_same_text};
ghost use Rattle.lk_view.specs.ViewFindings.{derived_at, derived_findings, field_findings, source_findings, table_item_findings, within, wrong_within};

use lk_params::{Findings, Order, Owner, find_in_item, parameters_of, scalar};
use lk_read::{Item, Node};
use lk_val::NoMemory;
use lk_written::{add_wrong_within, block_items, find_in_filters, is_missing, is_named_block};
use std::alloc::Global;
use std::slice;

/// The faults of a derived table, all at `derived_table` of the view and from left to right: what may not stand in it, in its
/// source or in a column, filters that are none, names that are no words or strings, and a missing source. (Looker, LookML
/// reference: derived_table, explore_source)
pub fn find_in_derived(
    alloc: Global,
    view: &str,
    value: &Node,
    findings: &mut Findings,
) -> Result<(), NoMemory>
    ensures { IfOk result (λ _. findings.new.first
        ≡ fold sooner findings.old.first (derived_findings view.now value.now)) }
{
    let Node::Block(None, tree) = value else {
        return add_within(alloc, view, "derived_table", true, findings);
    };
    let items = parameters_of(tree);
    find_in_table(alloc, view, items, findings)?;
    let lacks_source = is_missing("explore_source", items);
    add_within(alloc, view, "explore_source", lacks_source, findings)
}

fn add_within(
    alloc: Global,
    view: &str,
    parameter: &str,
    so: bool,
    findings: &mut Findings,
) -> Result<(), NoMemory>
    ensures { IfOk result (λ _. findings.new.first
        ≡ fold sooner findings.old.first (wrong_within view.now parameter.now so)) }
{
    add_wrong_within(
        alloc,
        Order::Object,
        view,
        "derived_table",
        parameter,
        so,
        findings,
    )
}

fn find_in_table(
    alloc: Global,
    view: &str,
    items: &[Item],
    findings: &mut Findings,
) -> Result<(), NoMemory>
    ensures { IfOk result (λ _. findings.new.first ≡ fold sooner findings.old.first
        (within Owner.DerivedTable view.now (table_item_findings view.now) items.now)) }
{
    for place in 0..items.len() {
        find_by_itself(
            alloc,
            Owner::DerivedTable,
            view,
            &items[..place],
            &items[place],
            findings,
        )?;
        find_in_table_item(alloc, view, &items[place], findings)?;
    }
    Ok(())
}

// What one parameter of a block within the derived table shows by itself.
fn find_by_itself(
    alloc: Global,
    owner: Owner,
    view: &str,
    before: &[Item],
    item: &Item,
    findings: &mut Findings,
) -> Result<(), NoMemory>
    ensures { IfOk result (λ _. findings.new.first ≡ fold sooner findings.old.first
        (item_findings Order.Object owner view.now (Some derived_at) before.now item.now)) }
{
    find_in_item(
        alloc,
        Order::Object,
        owner,
        view,
        Some("derived_table"),
        before,
        item,
        findings,
    )
}

fn find_in_table_item(
    alloc: Global,
    view: &str,
    item: &Item,
    findings: &mut Findings,
) -> Result<(), NoMemory>
    ensures { IfOk result (λ _. findings.new.first
        ≡ fold sooner findings.old.first (table_item_findings view.now item.now)) }
{
    if item.name.as_str() != "explore_source" {
        let is_wrong = has_no_text("datagroup_trigger", item);
        return add_within(alloc, view, "datagroup_trigger", is_wrong, findings);
    }
    if is_named_block(&item.value) {
        find_in_source(alloc, view, block_items(item), findings)
    } else {
        add_within(alloc, view, "explore_source", true, findings)
    }
}

// The parameter has this name, and its value is no word or string.
fn has_no_text(name: &str, item: &Item) -> bool
    ensures { result ≡ (is_same_text item.now.name name.now && not (is_some (scalar item.now.value))) }
{
    item.name.as_str() == name && scalar(&item.value).is_none()
}

fn find_in_source(
    alloc: Global,
    view: &str,
    items: &[Item],
    findings: &mut Findings,
) -> Result<(), NoMemory>
    ensures { IfOk result (λ _. findings.new.first ≡ fold sooner findings.old.first
        (within Owner.ExploreSource view.now (source_findings view.now) items.now)) }
{
    for place in 0..items.len() {
        find_by_itself(
            alloc,
            Owner::ExploreSource,
            view,
            &items[..place],
            &items[place],
            findings,
        )?;
        find_in_source_item(alloc, view, &items[place], findings)?;
    }
    Ok(())
}

fn find_in_source_item(
    alloc: Global,
    view: &str,
    item: &Item,
    findings: &mut Findings,
) -> Result<(), NoMemory>
    ensures { IfOk result (λ _. findings.new.first
        ≡ fold sooner findings.old.first (source_findings view.now item.now)) }
{
    if item.name.as_str() != "column" {
        return find_in_filters(
            alloc,
            Order::Object,
            view,
            "derived_table",
            slice::from_ref(item),
            findings,
        );
    }
    if is_named_block(&item.value) {
        find_in_column(alloc, view, block_items(item), findings)
    } else {
        add_within(alloc, view, "column", true, findings)
    }
}

fn find_in_column(
    alloc: Global,
    view: &str,
    items: &[Item],
    findings: &mut Findings,
) -> Result<(), NoMemory>
    ensures { IfOk result (λ _. findings.new.first ≡ fold sooner findings.old.first
        (within Owner.Column view.now (field_findings view.now) items.now)) }
{
    for place in 0..items.len() {
        find_by_itself(
            alloc,
            Owner::Column,
            view,
            &items[..place],
            &items[place],
            findings,
        )?;
        let is_wrong = has_no_text("field", &items[place]);
        add_within(alloc, view, "field", is_wrong, findings)?;
    }
    Ok(())
}
