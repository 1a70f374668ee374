ghost use Rattle.std.specs.Prelude.{◌≡◌, [], IfOk, is_some, option_map};
ghost use Rattle.std.specs.Option.{option_and_then};
ghost use Rattle.std.specs.List.{fold};
ghost use Rattle.lk_params.specs.Findings.{sooner, soonest};
ghost use Rattle.lk_params.specs.Values.{code};
ghost use Rattle.lk_view.specs.Tables.{table_named};
ghost use Rattle.lk_view.specs.ViewFindings.{is_field_kind, is_wrong_value, item_by_item, table_findings, table_text, value_findings, view_findings};

use crate::derived_findings::find_in_derived;
use crate::table::table_named;
use lk_params::{
    Finding, Findings, Number, Order, Owner, code, find_in_item, last_named, scalar, words,
};
use lk_read::{Item, Node};
use lk_types::Schema;
use lk_val::NoMemory;
use lk_written::{add_wrong, is_named_block, is_no_truth, is_text, table_number};
use std::alloc::Global;

/// The first fault of a view that its own parameters show, those of its fields aside: what may not stand there, values
/// outside the profile, what stands wrong in its derived table, and a table that the schema lacks. (Looker, LookML
/// reference: view)
pub fn first_of_view(
    alloc: Global,
    schema: &Schema,
    view: &str,
    items: &[Item],
) -> Result<Option<Finding>, NoMemory>
    ensures { IfOk result (λ first. first ≡ soonest (view_findings schema.now view.now items.now)) }
{
    let mut findings = Findings::new();
    find_in_view(alloc, schema, view, items, &mut findings)?;
    Ok(findings.first)
}

fn find_in_view(
    alloc: Global,
    schema: &Schema,
    view: &str,
    items: &[Item],
    findings: &mut Findings,
) -> Result<(), NoMemory>
    ensures { IfOk result (λ _. findings.new.first
        ≡ fold sooner findings.old.first (view_findings schema.now view.now items.now)) }
{
    find_in_items(alloc, view, items, findings)?;
    find_table(alloc, schema, view, items, findings)
}

// At each parameter what it shows by itself, and then what its value shows.
fn find_in_items(
    alloc: Global,
    view: &str,
    items: &[Item],
    findings: &mut Findings,
) -> Result<(), NoMemory>
    ensures { IfOk result (λ _. findings.new.first
        ≡ fold sooner findings.old.first (item_by_item view.now [] items.now)) }
{
    for place in 0..items.len() {
        find_in_item(
            alloc,
            Order::Object,
            Owner::View,
            view,
            None,
            &items[..place],
            &items[place],
            findings,
        )?;
        find_in_value(alloc, view, &items[place], findings)?;
    }
    Ok(())
}

fn find_in_value(
    alloc: Global,
    view: &str,
    item: &Item,
    findings: &mut Findings,
) -> Result<(), NoMemory>
    ensures { IfOk result (λ _. findings.new.first
        ≡ fold sooner findings.old.first (value_findings view.now item.now)) }
{
    if item.name.as_str() == "derived_table" {
        return find_in_derived(alloc, view, &item.value, findings);
    }
    let is_wrong = is_wrong_value(alloc, item)?;
    add_wrong(
        alloc,
        Order::Object,
        view,
        item.name.as_str(),
        is_wrong,
        findings,
    )
}

// The value of a parameter of the view is outside the profile.
fn is_wrong_value(alloc: Global, item: &Item) -> Result<bool, NoMemory>
    ensures { IfOk result (λ so. so ≡ is_wrong_value item.now) }
{
    let name = item.name.as_str();
    if name == "sql_table_name" {
        Ok(!is_table(alloc, &item.value)?)
    } else if is_field_kind(name) {
        Ok(!is_named_block(&item.value))
    } else if name == "extends" {
        Ok(words(alloc, &item.value)?.is_none())
    } else if name == "extension" {
        Ok(!is_text("required", scalar(&item.value)))
    } else {
        Ok(name == "final" && is_no_truth(scalar(&item.value)))
    }
}

fn is_table(alloc: Global, value: &Node) -> Result<bool, NoMemory>
    ensures { IfOk result (λ so. so ≡ is_some (option_and_then table_named (code value.now))) }
{
    match code(value) {
        None => Ok(false),
        Some(text) => Ok(table_named(alloc, text.as_str())?.is_some()),
    }
}

fn is_field_kind(name: &str) -> bool
    ensures { result ≡ is_field_kind name.now }
{
    name == "dimension" || name == "dimension_group" || name == "measure"
}

/// The name of a view's table: the last name of `sql_table_name`, and else the view's own; none where the text is no name of
/// a table.
pub fn table_text<'a>(
    alloc: Global,
    view: &'a str,
    items: &'a [Item],
) -> Result<Option<&'a str>, NoMemory>
    ensures { IfOk result (λ name. option_map (λ n. n.now) name ≡ table_text view.now items.now) }
{
    match last_named("sql_table_name", items) {
        None => Ok(Some(view)),
        Some(item) => match code(&item.value) {
            None => Ok(None),
            Some(text) => table_named(alloc, text.as_str()),
        },
    }
}

fn find_table(
    alloc: Global,
    schema: &Schema,
    view: &str,
    items: &[Item],
    findings: &mut Findings,
) -> Result<(), NoMemory>
    ensures { IfOk result (λ _. findings.new.first
        ≡ fold sooner findings.old.first (table_findings schema.now view.now items.now)) }
{
    if last_named("derived_table", items).is_some() {
        return Ok(());
    }
    if let Some(name) = table_text(alloc, view, items)? {
        if table_number(schema, name.as_bytes()).is_none() {
            findings.add(Finding::new(
                alloc,
                Order::Object,
                Number::N4,
                "sql_table_name",
                view,
                name,
            )?);
        }
    }
    Ok(())
}
