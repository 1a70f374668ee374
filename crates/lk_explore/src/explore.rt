ghost use Rattle.std.specs.Prelude.{◌≡◌, IfOk, codes, length};
ghost use Rattle.std.specs.List.{filter, flat_map, fold};
ghost use Rattle.lk_params.specs.Findings.{soonest, sooner};
ghost use Rattle.lk_params.specs.Parameters.{items_of};
ghost use Rattle.lk_explore.specs.ExploreFilters.{AreExploreFilters, is_filter};
ghost use Rattle.lk_explore.specs.Values.{words_at};
ghost use Rattle.lk_explore.specs.Explores.{AreJoins, AreRollups, IsExplore, count_findings, explore_findings, is_wrong_value, joins_in, rollups_in, value_findings};

use crate::filters::read_explore_filters;
use crate::join::read_join;
use crate::rollup::read_rollup;
use crate::values::{add_wrong_at, are_no_words, is_no_text, view_or, words_at};
use lk_objects::{AggregateTable, DeclaredExplore, DeclaredJoin, ExploreFilter};
use lk_params::{
    Finding, Findings, Number, Order, Owner, add_if, find_unknown, parameters_of, scalar,
};
use lk_read::{Item, Tree};
use lk_val::{Items, NoMemory, Text};
use lk_written::{is_block_of, is_named_block, is_no_truth, is_text};
use std::alloc::Global;

const MOST_JOINS: usize = 31;

/// An explore, read from its parameters: its base view, its joins, filters and aggregate tables in order, each with the
/// first fault that its own parameters show. Names stay as they are written. (Looker, LookML reference: explore)
pub fn read_explore(alloc: Global, name: &Text, tree: &Tree) -> Result<DeclaredExplore, NoMemory>
    ensures { IfOk result (IsExplore name.now (items_of tree.now)) }
{
    let items = parameters_of(tree);
    let joined = read_joined(alloc, items)?;
    let asked = read_asked(alloc, name.as_str(), items)?;
    let base = view_or(alloc, name.as_str(), items)?;
    let first = first_of_explore(alloc, name.as_str(), items)?;
    let name = name.copy(alloc)?;
    Ok(DeclaredExplore {
        name,
        base,
        joins: joined.joins,
        always_join: joined.always_join,
        filters: asked.filters,
        rollups: asked.rollups,
        first,
    })
}

// The joins of an explore, and the names of those that each query has.
#[derive(Drop)]
struct Joined {
    joins: Items<DeclaredJoin>,
    always_join: Items<Text>,
}

fn read_joined(alloc: Global, items: &[Item]) -> Result<Joined, NoMemory>
    ensures joins { IfOk result (λ joined. AreJoins (joins_in items.now) joined.joins) }
    ensures always { IfOk result (λ joined. joined.always_join ≡ words_at (codes "always_join") items.now) }
{
    let joins = read_joins(alloc, items)?;
    let always_join = words_at(alloc, "always_join", items)?;
    Ok(Joined { joins, always_join })
}

// The filters of an explore, and its aggregate tables.
#[derive(Drop)]
struct Asked {
    filters: Items<ExploreFilter>,
    rollups: Items<AggregateTable>,
}

fn read_asked(alloc: Global, name: &str, items: &[Item]) -> Result<Asked, NoMemory>
    ensures filters { IfOk result (λ asked. AreExploreFilters name.now (filter is_filter items.now) asked.filters) }
    ensures rollups { IfOk result (λ asked. AreRollups (rollups_in items.now) asked.rollups) }
{
    let filters = read_explore_filters(alloc, name, items)?;
    let rollups = read_rollups(alloc, items)?;
    Ok(Asked { filters, rollups })
}

fn read_joins(alloc: Global, items: &[Item]) -> Result<Items<DeclaredJoin>, NoMemory>
    ensures { IfOk result (AreJoins (joins_in items.now)) }
{
    let mut joins = Items::new(alloc);
    for item in items {
        if is_block_of("join", item) {
            joins.push(read_join(alloc, item)?)?;
        }
    }
    Ok(joins)
}

fn read_rollups(alloc: Global, items: &[Item]) -> Result<Items<AggregateTable>, NoMemory>
    ensures { IfOk result (AreRollups (rollups_in items.now)) }
{
    let mut tables = Items::new(alloc);
    for item in items {
        if is_block_of("aggregate_table", item) {
            tables.push(read_rollup(alloc, item)?)?;
        }
    }
    Ok(tables)
}

fn first_of_explore(
    alloc: Global,
    explore: &str,
    items: &[Item],
) -> Result<Option<Finding>, NoMemory>
    ensures { IfOk result (λ first. first ≡ soonest (explore_findings explore.now items.now)) }
{
    let mut findings = Findings::new();
    find_in_explore(alloc, explore, items, &mut findings)?;
    Ok(findings.first)
}

fn find_in_explore(
    alloc: Global,
    explore: &str,
    items: &[Item],
    findings: &mut Findings,
) -> Result<(), NoMemory>
    ensures { IfOk result (λ _. findings.new.first
        ≡ fold sooner findings.old.first (explore_findings explore.now items.now)) }
{
    find_unknown(
        alloc,
        Order::Object,
        Owner::Explore,
        explore,
        None,
        items,
        findings,
    )?;
    find_in_values(alloc, explore, items, findings)?;
    find_many(alloc, items, findings)
}

fn find_in_values(
    alloc: Global,
    explore: &str,
    items: &[Item],
    findings: &mut Findings,
) -> Result<(), NoMemory>
    ensures { IfOk result (λ _. findings.new.first
        ≡ fold sooner findings.old.first (flat_map (value_findings explore.now) items.now)) }
{
    for item in items {
        let is_wrong = is_wrong_value(alloc, item)?;
        add_wrong_at(alloc, explore, item.name.as_str(), is_wrong, findings)?;
    }
    Ok(())
}

// The value of a parameter of the explore is outside the profile.
fn is_wrong_value(alloc: Global, item: &Item) -> Result<bool, NoMemory>
    ensures { IfOk result (λ so. so ≡ is_wrong_value item.now) }
{
    let name = item.name.as_str();
    if name == "from" {
        Ok(is_no_text(&item.value))
    } else if name == "join" || name == "aggregate_table" {
        Ok(!is_named_block(&item.value))
    } else if name == "always_join" || name == "extends" {
        are_no_words(alloc, &item.value)
    } else if name == "extension" {
        Ok(!is_text("required", scalar(&item.value)))
    } else {
        Ok(name == "final" && is_no_truth(scalar(&item.value)))
    }
}

// More joins than an explore may have.
fn find_many(alloc: Global, items: &[Item], findings: &mut Findings) -> Result<(), NoMemory>
    ensures { IfOk result (λ _. findings.new.first
        ≡ fold sooner findings.old.first (count_findings items.now)) }
{
    let is_over = count_joins(items) > MOST_JOINS;
    add_if(
        alloc,
        is_over,
        Order::Object,
        Number::N15,
        "join",
        "joins",
        "",
        findings,
    )
}

fn count_joins(items: &[Item]) -> usize
    ensures { result ≡ length (joins_in items.now) }
{
    items
        .iter()
        .filter(|item| is_block_of("join", item))
        .count()
}
