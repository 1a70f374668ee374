ghost use Rattle.std.specs.Prelude.{◌≡◌, [], IfOk};
ghost use Rattle.std.specs.List.{fold};
ghost use Rattle.lk_params.specs.Findings.{soonest, sooner};
ghost use Rattle.lk_explore.specs.Rollups.{item_by_item, materialization_findings, query_findings, rollup_findings, value_findings};

use crate::part_findings::find_in_part;
use crate::values::add_wrong_at;
use lk_params::{Finding, Findings, Order, Owner, find_in_item, parameters_of};
use lk_read::{Item, Node};
use lk_val::NoMemory;
use lk_written::{add_wrong_within, is_missing};
use std::alloc::Global;

// The first fault that an aggregate table's own parameters show.
pub(crate) fn first_of_rollup(
    alloc: Global,
    table: &str,
    items: &[Item],
) -> Result<Option<Finding>, NoMemory>
    ensures { IfOk result (λ first. first ≡ soonest (rollup_findings table.now items.now)) }
{
    let mut findings = Findings::new();
    find_in_rollup(alloc, table, items, &mut findings)?;
    Ok(findings.first)
}

fn find_in_rollup(
    alloc: Global,
    table: &str,
    items: &[Item],
    findings: &mut Findings,
) -> Result<(), NoMemory>
    ensures { IfOk result (λ _. findings.new.first
        ≡ fold sooner findings.old.first (rollup_findings table.now items.now)) }
{
    find_in_items(alloc, table, items, findings)?;
    let lacks_query = is_missing("query", items);
    add_wrong_at(alloc, table, "query", lacks_query, findings)?;
    let lacks_trigger = is_missing("materialization", items);
    add_wrong_at(alloc, table, "materialization", lacks_trigger, findings)
}

// At each parameter what it shows by itself, and then what its value shows.
fn find_in_items(
    alloc: Global,
    table: &str,
    items: &[Item],
    findings: &mut Findings,
) -> Result<(), NoMemory>
    ensures { IfOk result (λ _. findings.new.first
        ≡ fold sooner findings.old.first (item_by_item table.now [] items.now)) }
{
    for place in 0..items.len() {
        find_in_item(
            alloc,
            Order::Object,
            Owner::AggregateTable,
            table,
            None,
            &items[..place],
            &items[place],
            findings,
        )?;
        find_in_value(alloc, table, &items[place], findings)?;
    }
    Ok(())
}

fn find_in_value(
    alloc: Global,
    table: &str,
    item: &Item,
    findings: &mut Findings,
) -> Result<(), NoMemory>
    ensures { IfOk result (λ _. findings.new.first
        ≡ fold sooner findings.old.first (value_findings table.now item.now)) }
{
    let name = item.name.as_str();
    if name == "query" {
        find_in_query(alloc, table, &item.value, findings)
    } else if name == "materialization" {
        find_in_materialization(alloc, table, &item.value, findings)
    } else {
        Ok(())
    }
}

fn find_in_query(
    alloc: Global,
    table: &str,
    value: &Node,
    findings: &mut Findings,
) -> Result<(), NoMemory>
    ensures { IfOk result (λ _. findings.new.first
        ≡ fold sooner findings.old.first (query_findings table.now value.now)) }
{
    let Node::Block(None, inner) = value else {
        return add_wrong_at(alloc, table, "query", true, findings);
    };
    let items = parameters_of(inner);
    find_in_part(alloc, Owner::Query, table, "query", items, findings)
}

fn find_in_materialization(
    alloc: Global,
    table: &str,
    value: &Node,
    findings: &mut Findings,
) -> Result<(), NoMemory>
    ensures { IfOk result (λ _. findings.new.first
        ≡ fold sooner findings.old.first (materialization_findings table.now value.now)) }
{
    let Node::Block(None, inner) = value else {
        return add_wrong_at(alloc, table, "materialization", true, findings);
    };
    let items = parameters_of(inner);
    find_in_part(
        alloc,
        Owner::Materialization,
        table,
        "materialization",
        items,
        findings,
    )?;
    let lacks_trigger = is_missing("datagroup_trigger", items);
    add_wrong_within(
        alloc,
        Order::Object,
        table,
        "materialization",
        "datagroup_trigger",
        lacks_trigger,
        findings,
    )
}
