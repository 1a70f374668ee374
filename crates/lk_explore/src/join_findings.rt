ghost use Rattle.std.specs.Prelude.{◌≡◌, codes, IfOk, not, is_some};
ghost use Rattle.std.specs.List.{fold};
ghost use Rattle.std.specs.Option.{option_and_then};
ghost use Rattle.lk_params.specs.Findings.{soonest, sooner};
ghost use Rattle.lk_params.specs.Values.{scalar};
ghost use Rattle.lk_written.specs.Values.{is_wrong_at};
ghost use Rattle.lk_explore.specs.Joins.{condition_findings, is_cross, is_no_kind, is_no_relation, join_findings, kind_of, lacks_condition, name_findings, sort_findings};
ghost use Rattle.lk_explore.specs.Values.{are_no_words, is_no_text};

use crate::join::{kind_named, kind_of, relation_named};
use crate::values::{add_wrong_at, are_no_words, has_no_text};
use lk_objects::Code;
use lk_params::{
    Finding, Findings, Number, Order, Owner, add_if, find_unknown, last_named, scalar,
};
use lk_read::Item;
use lk_types::JoinKind;
use lk_val::NoMemory;
use lk_written::{find_in_code, is_missing};
use std::alloc::Global;

// The first fault that a join's own parameters show, given what its `sql_on` is read as.
pub(crate) fn first_of_join(
    alloc: Global,
    join: &str,
    items: &[Item],
    on: &Code,
) -> Result<Option<Finding>, NoMemory>
    ensures { IfOk result (λ first. first ≡ soonest (join_findings join.now items.now on.now)) }
{
    let mut findings = Findings::new();
    find_in_join(alloc, join, items, on, &mut findings)?;
    Ok(findings.first)
}

fn find_in_join(
    alloc: Global,
    join: &str,
    items: &[Item],
    on: &Code,
    findings: &mut Findings,
) -> Result<(), NoMemory>
    ensures { IfOk result (λ _. findings.new.first
        ≡ fold sooner findings.old.first (join_findings join.now items.now on.now)) }
{
    find_unknown(
        alloc,
        Order::Object,
        Owner::Join,
        join,
        None,
        items,
        findings,
    )?;
    find_in_sorts(alloc, join, items, findings)?;
    find_in_names(alloc, join, items, findings)?;
    find_in_condition(alloc, join, items, findings)?;
    find_in_code(alloc, Order::Object, join, "sql_on", on, findings)
}

fn find_in_sorts(
    alloc: Global,
    join: &str,
    items: &[Item],
    findings: &mut Findings,
) -> Result<(), NoMemory>
    ensures { IfOk result (λ _. findings.new.first
        ≡ fold sooner findings.old.first (sort_findings join.now items.now)) }
{
    add_wrong_at(alloc, join, "from", has_no_text("from", items), findings)?;
    add_wrong_at(alloc, join, "type", has_no_kind(items), findings)?;
    add_wrong_at(
        alloc,
        join,
        "relationship",
        has_no_relation(items),
        findings,
    )
}

fn find_in_names(
    alloc: Global,
    join: &str,
    items: &[Item],
    findings: &mut Findings,
) -> Result<(), NoMemory>
    ensures { IfOk result (λ _. findings.new.first
        ≡ fold sooner findings.old.first (name_findings join.now items.now)) }
{
    let lists_none = has_no_joins(alloc, items)?;
    let has_no_key = has_no_text("foreign_key", items);
    add_wrong_at(alloc, join, "foreign_key", has_no_key, findings)?;
    add_wrong_at(alloc, join, "required_joins", lists_none, findings)
}

fn has_no_kind(items: &[Item]) -> bool
    ensures { result ≡ is_wrong_at is_no_kind (codes "type") items.now }
{
    match last_named("type", items) {
        None => false,
        Some(item) => match scalar(&item.value) {
            None => true,
            Some(name) => kind_named(name.as_str()).is_none(),
        },
    }
}

fn has_no_relation(items: &[Item]) -> bool
    ensures { result ≡ is_wrong_at is_no_relation (codes "relationship") items.now }
{
    match last_named("relationship", items) {
        None => false,
        Some(item) => match scalar(&item.value) {
            None => true,
            Some(name) => relation_named(name.as_str()).is_none(),
        },
    }
}

fn has_no_joins(alloc: Global, items: &[Item]) -> Result<bool, NoMemory>
    ensures { IfOk result (λ so. so ≡ is_wrong_at are_no_words (codes "required_joins") items.now) }
{
    match last_named("required_joins", items) {
        None => Ok(false),
        Some(item) => are_no_words(alloc, &item.value),
    }
}

fn find_in_condition(
    alloc: Global,
    join: &str,
    items: &[Item],
    findings: &mut Findings,
) -> Result<(), NoMemory>
    ensures { IfOk result (λ _. findings.new.first
        ≡ fold sooner findings.old.first (condition_findings join.now items.now)) }
{
    let is_wrong = !is_cross(kind_of(items)) && lacks_condition(items);
    add_if(
        alloc,
        is_wrong,
        Order::Object,
        Number::N8,
        "sql_on",
        join,
        "",
        findings,
    )
}

fn is_cross(kind: JoinKind) -> bool
    ensures { result ≡ is_cross kind }
{
    kind == JoinKind::Cross
}

// Whether both of `sql_on` and `foreign_key` are given, or none.
fn lacks_condition(items: &[Item]) -> bool
    ensures { result ≡ lacks_condition items.now }
{
    if is_missing("sql_on", items) {
        is_missing("foreign_key", items)
    } else {
        !is_missing("foreign_key", items)
    }
}
