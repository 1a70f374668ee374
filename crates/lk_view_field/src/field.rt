ghost use Rattle.std.specs.Prelude.{◌≡◌, ◌++◌, IfOk, codes, false, option_map};
ghost use Rattle.std.specs.List.{fold};
ghost use Rattle.lk_params.specs.Findings.{soonest, sooner};
ghost use Rattle.lk_written.specs.Blocks.{block_items, block_name};
ghost use Rattle.lk_view_field.specs.FieldFindings.{own_findings, owner_of, sort_findings};
ghost use Rattle.lk_view_field.specs.Fields.{IsField, filters_of, frames_with, full_name, is_key_with, is_over_measures, key_text, sql_text, tiers_with};
ghost use Rattle.lk_written.specs.Codes.{IsCode};
ghost use Rattle.lk_written.specs.ReadFilters.{AreFilters};

use crate::dimension::find_in_dimension;
use crate::frames::frames_of;
use crate::group::find_in_group;
use crate::measure::find_in_measure;
use crate::sort::sort_of;
use crate::tiers::tiers_of;
use lk_objects::{Code, DeclaredField, FieldSort, FilterText};
use lk_params::{Finding, Findings, Order, Owner, find_unknown};
use lk_read::Item;
use lk_types::{Frame, Op};
use lk_val::{Items, NoMemory, Text};
use lk_written::{
    block_items, block_name, code_at, find_in_code, is_yes, read_code, read_filters, text_at,
};
use std::alloc::Global;

/// A dimension, a dimension group or a measure of a view, read from its block, with the first fault that its own parameters
/// show.
pub fn read_field(alloc: Global, view: &str, item: &Item) -> Result<DeclaredField, NoMemory>
    ensures { IfOk result (IsField view.now item.now.name (block_name item.now) (block_items item.now)) }
{
    let name = block_name(item);
    let items = block_items(item);
    let sort = sort_of(item.name.as_str(), items);
    let own_name = Text::from_str(alloc, name)?;
    let lists = read_lists(alloc, sort, items)?;
    let codes = read_codes(alloc, sort, name, items)?;
    let first = first_of_field(alloc, view, name, items, sort, &codes.sql, &codes.key)?;
    Ok(DeclaredField {
        name: own_name,
        sort,
        sql: codes.sql,
        key: codes.key,
        filters: lists.filters,
        frames: lists.frames,
        tiers: lists.tiers,
        is_key: is_key_with(sort, items),
        first,
    })
}

// The expressions of a field.
#[derive(Drop)]
struct Codes {
    sql: Code,
    key: Code,
}

fn read_codes(alloc: Global, sort: FieldSort, name: &str, items: &[Item]) -> Result<Codes, NoMemory>
    ensures sql { IfOk result (λ codes. IsCode (is_over_measures sort) (sql_text sort name.now items.now) codes.sql) }
    ensures key { IfOk result (λ codes. IsCode false (key_text sort items.now) codes.key) }
{
    let sql = read_sql(alloc, sort, name, items)?;
    let key = read_code(alloc, false, key_text(sort, items))?;
    Ok(Codes { sql, key })
}

// The lists of a field.
#[derive(Drop)]
struct Lists {
    filters: Items<FilterText>,
    frames: Items<Frame>,
    tiers: Items<i64>,
}

fn read_lists(alloc: Global, sort: FieldSort, items: &[Item]) -> Result<Lists, NoMemory>
    ensures filters { IfOk result (λ lists. AreFilters (filters_of sort items.now) lists.filters) }
    ensures frames { IfOk result (λ lists. lists.frames ≡ frames_with sort items.now) }
    ensures tiers { IfOk result (λ lists. lists.tiers ≡ tiers_with sort items.now) }
{
    let filters = filters_of(alloc, sort, items)?;
    let frames = frames_with(alloc, sort, items)?;
    let tiers = tiers_with(alloc, sort, items)?;
    Ok(Lists {
        filters,
        frames,
        tiers,
    })
}

// What the field's `sql` says; without one a dimension is the column of its name.
fn read_sql(alloc: Global, sort: FieldSort, name: &str, items: &[Item]) -> Result<Code, NoMemory>
    ensures { IfOk result (IsCode (is_over_measures sort) (sql_text sort name.now items.now)) }
{
    match (sort, code_at("sql", items)) {
        (FieldSort::Dimension(_), None) => {
            let column = column_of(alloc, name)?;
            read_code(alloc, false, Some(column.as_str()))
        }
        (_, None) => read_code(alloc, is_over_measures(sort), None),
        (_, Some(text)) => read_code(alloc, is_over_measures(sort), Some(text.as_str())),
    }
}

// The code of a column of the view's table.
fn column_of(alloc: Global, name: &str) -> Result<Text, NoMemory>
    ensures { IfOk result (λ code. code ≡ codes "${TABLE}." ++ name.now) }
{
    joined(alloc, "${TABLE}.", name)
}

fn is_over_measures(sort: FieldSort) -> bool
    ensures { result ≡ is_over_measures sort }
{
    sort == FieldSort::Measure(Some(Op::Number))
}

fn key_text(sort: FieldSort, items: &[Item]) -> Option<&str>
    ensures { option_map (λ t. t.now) result ≡ key_text sort items.now }
{
    match sort {
        FieldSort::Measure(_) => Some(code_at("sql_distinct_key", items)?.as_str()),
        FieldSort::Dimension(_) | FieldSort::Group => None,
    }
}

fn filters_of(alloc: Global, sort: FieldSort, items: &[Item]) -> Result<Items<FilterText>, NoMemory>
    ensures { IfOk result (AreFilters (filters_of sort items.now)) }
{
    match sort {
        FieldSort::Measure(_) => read_filters(alloc, items),
        FieldSort::Dimension(_) | FieldSort::Group => Ok(Items::new(alloc)),
    }
}

fn frames_with(alloc: Global, sort: FieldSort, items: &[Item]) -> Result<Items<Frame>, NoMemory>
    ensures { IfOk result (λ frames. frames ≡ frames_with sort items.now) }
{
    match sort {
        FieldSort::Group => frames_of(alloc, items),
        FieldSort::Dimension(_) | FieldSort::Measure(_) => Ok(Items::new(alloc)),
    }
}

fn tiers_with(alloc: Global, sort: FieldSort, items: &[Item]) -> Result<Items<i64>, NoMemory>
    ensures { IfOk result (λ tiers. tiers ≡ tiers_with sort items.now) }
{
    match sort {
        FieldSort::Dimension(_) => tiers_of(alloc, items),
        FieldSort::Group | FieldSort::Measure(_) => Ok(Items::new(alloc)),
    }
}

fn is_key_with(sort: FieldSort, items: &[Item]) -> bool
    ensures { result ≡ is_key_with sort items.now }
{
    match sort {
        FieldSort::Dimension(_) => is_yes(text_at("primary_key", items)),
        FieldSort::Group | FieldSort::Measure(_) => false,
    }
}

fn first_of_field(
    alloc: Global,
    view: &str,
    name: &str,
    items: &[Item],
    sort: FieldSort,
    sql: &Code,
    key: &Code,
) -> Result<Option<Finding>, NoMemory>
    ensures { IfOk result (λ first. first
        ≡ soonest (own_findings (full_name view.now name.now) items.now sort sql.now key.now)) }
{
    let object = full_name(alloc, view, name)?;
    first_of_object(alloc, object.as_str(), items, sort, sql, key)
}

fn full_name(alloc: Global, view: &str, name: &str) -> Result<Text, NoMemory>
    ensures { IfOk result (λ full. full ≡ full_name view.now name.now) }
{
    let front = joined(alloc, view, ".")?;
    joined(alloc, front.as_str(), name)
}

fn joined(alloc: Global, a: &str, b: &str) -> Result<Text, NoMemory>
    ensures { IfOk result (λ text. text ≡ a.now ++ b.now) }
{
    let mut text = String::from_str(alloc, a)?;
    text.push_str(b)?;
    Ok(Text::from_string(text))
}

fn first_of_object(
    alloc: Global,
    object: &str,
    items: &[Item],
    sort: FieldSort,
    sql: &Code,
    key: &Code,
) -> Result<Option<Finding>, NoMemory>
    ensures { IfOk result (λ first. first ≡ soonest (own_findings object.now items.now sort sql.now key.now)) }
{
    let mut findings = Findings::new();
    find_in_object(alloc, object, items, sort, sql, key, &mut findings)?;
    Ok(findings.first)
}

fn find_in_object(
    alloc: Global,
    object: &str,
    items: &[Item],
    sort: FieldSort,
    sql: &Code,
    key: &Code,
    findings: &mut Findings,
) -> Result<(), NoMemory>
    ensures { IfOk result (λ _. findings.new.first
        ≡ fold sooner findings.old.first (own_findings object.now items.now sort sql.now key.now)) }
{
    find_unknown(
        alloc,
        Order::Field,
        owner_of(sort),
        object,
        None,
        items,
        findings,
    )?;
    find_in_values(alloc, object, items, sort, findings)?;
    find_in_code(alloc, Order::Field, object, "sql", sql, findings)?;
    find_in_code(
        alloc,
        Order::Field,
        object,
        "sql_distinct_key",
        key,
        findings,
    )
}

fn owner_of(sort: FieldSort) -> Owner
    ensures { result ≡ owner_of sort }
{
    match sort {
        FieldSort::Dimension(_) => Owner::Dimension,
        FieldSort::Group => Owner::DimensionGroup,
        FieldSort::Measure(_) => Owner::Measure,
    }
}

// The faults of the values of a field's parameters, by its sort.
fn find_in_values(
    alloc: Global,
    object: &str,
    items: &[Item],
    sort: FieldSort,
    findings: &mut Findings,
) -> Result<(), NoMemory>
    ensures { IfOk result (λ _. findings.new.first
        ≡ fold sooner findings.old.first (sort_findings object.now items.now sort)) }
{
    match sort {
        FieldSort::Dimension(kind) => find_in_dimension(alloc, object, items, kind, findings),
        FieldSort::Group => find_in_group(alloc, object, items, findings),
        FieldSort::Measure(op) => find_in_measure(alloc, object, items, op, findings),
    }
}
