ghost use Rattle.std.specs.Prelude.{◌≡◌, IfOk, false, true};
ghost use Rattle.std.specs.List.{filter, fold};
ghost use Rattle.lk_params.specs.Findings.{soonest, sooner};
ghost use Rattle.lk_params.specs.Values as values;
ghost use Rattle.lk_written.specs.Codes.{IsCode};
ghost use Rattle.lk_explore.specs.ExploreFilters.{AreExploreFilters, IsAlways, IsExploreFilter, access_block_findings, access_findings, access_of, always_findings, is_filter, missing_in, where_findings};

use crate::part_findings::find_in_part;
use crate::values::{add_wrong_at, plain_items};
use lk_objects::{AccessFilter, AlwaysFilter, Code, ExploreFilter};
use lk_params::{
    Finding, Findings, Number, Order, Owner, add_if, code, find_unknown, parameters_of,
};
use lk_read::{Item, Node};
use lk_val::{Items, NoMemory};
use lk_written::{
    add_wrong_within, copied_text, find_in_code, is_missing, read_code, read_filters, text_at,
};
use std::alloc::Global;

// The filters of an explore in the order of the text, each with its first fault.
pub(crate) fn read_explore_filters(
    alloc: Global,
    explore: &str,
    items: &[Item],
) -> Result<Items<ExploreFilter>, NoMemory>
    ensures { IfOk result (AreExploreFilters explore.now (filter is_filter items.now)) }
{
    let mut filters = Items::new(alloc);
    for item in items {
        if is_filter(item) {
            filters.push(read_filter(alloc, explore, item)?)?;
        }
    }
    Ok(filters)
}

fn is_filter(item: &Item) -> bool
    ensures { result ≡ is_filter item.now }
{
    let name = item.name.as_str();
    name == "always_filter" || name == "access_filter" || name == "sql_always_where"
}

fn read_filter(alloc: Global, explore: &str, item: &Item) -> Result<ExploreFilter, NoMemory>
    requires { is_filter item.now ≡ true }
    ensures { IfOk result (IsExploreFilter explore.now item.now) }
{
    let name = item.name.as_str();
    if name == "always_filter" {
        Ok(ExploreFilter::Always(read_always(alloc, explore, &item.value)?))
    } else if name == "access_filter" {
        Ok(ExploreFilter::Access(read_access(alloc, explore, &item.value)?))
    } else {
        let condition = read_where(alloc, &item.value)?;
        let first = first_of_where(alloc, explore, &condition)?;
        Ok(ExploreFilter::Where(condition, first))
    }
}

fn read_always(alloc: Global, explore: &str, value: &Node) -> Result<AlwaysFilter, NoMemory>
    ensures { IfOk result (IsAlways explore.now value.now) }
{
    Ok(AlwaysFilter {
        filters: read_filters(alloc, plain_items(value))?,
        first: first_of_always(alloc, explore, value)?,
    })
}

fn first_of_always(alloc: Global, explore: &str, value: &Node) -> Result<Option<Finding>, NoMemory>
    ensures { IfOk result (λ first. first ≡ soonest (always_findings explore.now value.now)) }
{
    let mut findings = Findings::new();
    find_in_always(alloc, explore, value, &mut findings)?;
    Ok(findings.first)
}

fn find_in_always(
    alloc: Global,
    explore: &str,
    value: &Node,
    findings: &mut Findings,
) -> Result<(), NoMemory>
    ensures { IfOk result (λ _. findings.new.first
        ≡ fold sooner findings.old.first (always_findings explore.now value.now)) }
{
    let Node::Block(None, inner) = value else {
        return add_wrong_at(alloc, explore, "always_filter", true, findings);
    };
    find_in_part(
        alloc,
        Owner::AlwaysFilter,
        explore,
        "always_filter",
        parameters_of(inner),
        findings,
    )
}

fn read_access(alloc: Global, explore: &str, value: &Node) -> Result<AccessFilter, NoMemory>
    ensures { IfOk result (λ filter. filter ≡ access_of explore.now value.now) }
{
    let items = plain_items(value);
    Ok(AccessFilter {
        field: copied_text(alloc, text_at("field", items))?,
        attribute: copied_text(alloc, text_at("user_attribute", items))?,
        first: first_of_access(alloc, explore, value)?,
    })
}

fn first_of_access(alloc: Global, explore: &str, value: &Node) -> Result<Option<Finding>, NoMemory>
    ensures { IfOk result (λ first. first ≡ soonest (access_findings explore.now value.now)) }
{
    let mut findings = Findings::new();
    find_in_access(alloc, explore, value, &mut findings)?;
    Ok(findings.first)
}

fn find_in_access(
    alloc: Global,
    explore: &str,
    value: &Node,
    findings: &mut Findings,
) -> Result<(), NoMemory>
    ensures { IfOk result (λ _. findings.new.first
        ≡ fold sooner findings.old.first (access_findings explore.now value.now)) }
{
    match value {
        Node::Block(None, inner) => find_in_access_block(
            alloc,
            explore,
            parameters_of(inner),
            findings,
        ),
        _ => add_wrong_at(alloc, explore, "access_filter", true, findings),
    }
}

fn find_in_access_block(
    alloc: Global,
    explore: &str,
    items: &[Item],
    findings: &mut Findings,
) -> Result<(), NoMemory>
    ensures { IfOk result (λ _. findings.new.first
        ≡ fold sooner findings.old.first (access_block_findings explore.now items.now)) }
{
    find_in_part(
        alloc,
        Owner::AccessFilter,
        explore,
        "access_filter",
        items,
        findings,
    )?;
    find_missing(alloc, explore, "field", items, findings)?;
    find_missing(alloc, explore, "user_attribute", items, findings)
}

fn find_missing(
    alloc: Global,
    explore: &str,
    name: &str,
    items: &[Item],
    findings: &mut Findings,
) -> Result<(), NoMemory>
    ensures { IfOk result (λ _. findings.new.first
        ≡ fold sooner findings.old.first (missing_in explore.now name.now items.now)) }
{
    add_wrong_within(
        alloc,
        Order::Object,
        explore,
        "access_filter",
        name,
        is_missing(name, items),
        findings,
    )
}

// The code of a `sql_always_where`, as it is read.
fn read_where(alloc: Global, value: &Node) -> Result<Code, NoMemory>
    ensures { IfOk result (IsCode false (values.code value.now)) }
{
    match code(value) {
        None => read_code(alloc, false, None),
        Some(text) => read_code(alloc, false, Some(text.as_str())),
    }
}

fn first_of_where(
    alloc: Global,
    explore: &str,
    condition: &Code,
) -> Result<Option<Finding>, NoMemory>
    ensures { IfOk result (λ first. first ≡ soonest (where_findings explore.now condition.now)) }
{
    let mut findings = Findings::new();
    find_in_where(alloc, explore, condition, &mut findings)?;
    Ok(findings.first)
}

fn find_in_where(
    alloc: Global,
    explore: &str,
    condition: &Code,
    findings: &mut Findings,
) -> Result<(), NoMemory>
    ensures { IfOk result (λ _. findings.new.first
        ≡ fold sooner findings.old.first (where_findings explore.now condition.now)) }
{
    if let Code::Liquid = condition {
        return add_if(
            alloc,
            true,
            Order::Object,
            Number::N11,
            "sql_always_where",
            explore,
            "",
            findings,
        );
    }
    find_in_code(
        alloc,
        Order::Object,
        explore,
        "sql_always_where",
        condition,
        findings,
    )
}
