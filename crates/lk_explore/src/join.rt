ghost use Rattle.std.specs.Prelude.{◌≡◌, codes, false, IfOk};
ghost use Rattle.lk_params.specs.Findings.{soonest};
ghost use Rattle.lk_written.specs.Blocks.{block_items, block_name};
ghost use Rattle.lk_written.specs.Codes.{IsCode};
ghost use Rattle.lk_written.specs.Values.{code_at, text_at};
ghost use Rattle.lk_explore.specs.Joins.{IsJoin, join_findings, kind_named, kind_of, relation_named, relation_of};
ghost use Rattle.lk_explore.specs.Values.{view_or, words_at};

use crate::join_findings::first_of_join;
use crate::values::{view_or, words_at};
use lk_objects::{Code, DeclaredJoin};
use lk_params::Finding;
use lk_read::Item;
use lk_types::{JoinKind, Relation};
use lk_val::{Items, NoMemory, Text};
use lk_written::{block_items, block_name, code_at, copied_text, read_code, text_at};
use std::alloc::Global;

// A join of an explore, read from its block, with the first fault that its own parameters show.
pub(crate) fn read_join(alloc: Global, item: &Item) -> Result<DeclaredJoin, NoMemory>
    ensures { IfOk result (IsJoin (block_name item.now) (block_items item.now)) }
{
    let name = block_name(item);
    let items = block_items(item);
    let names = read_names(alloc, name, items)?;
    let condition = read_condition(alloc, name, items)?;
    Ok(DeclaredJoin {
        name: names.name,
        view: names.view,
        kind: kind_of(items),
        relation: relation_of(items),
        on: condition.on,
        foreign_key: names.foreign_key,
        required: names.required,
        first: condition.first,
    })
}

// What a join is named, and what it names.
#[derive(Drop)]
struct Names {
    name: Text,
    view: Option<Text>,
    foreign_key: Option<Text>,
    required: Items<Text>,
}

fn read_names(alloc: Global, name: &str, items: &[Item]) -> Result<Names, NoMemory>
    ensures name { IfOk result (λ names. names.name ≡ name.now) }
    ensures view { IfOk result (λ names. names.view ≡ view_or name.now items.now) }
    ensures key { IfOk result (λ names. names.foreign_key ≡ text_at (codes "foreign_key") items.now) }
    ensures required { IfOk result (λ names. names.required ≡ words_at (codes "required_joins") items.now) }
{
    let view = view_or(alloc, name, items)?;
    let foreign_key = copied_text(alloc, text_at("foreign_key", items))?;
    let required = words_at(alloc, "required_joins", items)?;
    let name = Text::from_str(alloc, name)?;
    Ok(Names {
        name,
        view,
        foreign_key,
        required,
    })
}

// The condition of a join, and its first fault.
#[derive(Drop)]
struct Condition {
    on: Code,
    first: Option<Finding>,
}

fn read_condition(alloc: Global, name: &str, items: &[Item]) -> Result<Condition, NoMemory>
    ensures on { IfOk result (λ condition. IsCode false (code_at (codes "sql_on") items.now) condition.on) }
    ensures first { IfOk result (λ condition. condition.first
        ≡ soonest (join_findings name.now items.now condition.on)) }
{
    let on = read_on(alloc, items)?;
    let first = first_of_join(alloc, name, items, &on)?;
    Ok(Condition { on, first })
}

fn read_on(alloc: Global, items: &[Item]) -> Result<Code, NoMemory>
    ensures { IfOk result (IsCode false (code_at (codes "sql_on") items.now)) }
{
    match code_at("sql_on", items) {
        None => read_code(alloc, false, None),
        Some(text) => read_code(alloc, false, Some(text.as_str())),
    }
}

// The type of a join. (Looker, LookML reference: type, of joins)
pub(crate) fn kind_named(name: &str) -> Option<JoinKind>
    ensures { result ≡ kind_named name.now }
{
    if name == "left_outer" {
        Some(JoinKind::Left)
    } else if name == "full_outer" {
        Some(JoinKind::Full)
    } else if name == "inner" {
        Some(JoinKind::Inner)
    } else if name == "cross" {
        Some(JoinKind::Cross)
    } else {
        None
    }
}

// `left_outer` where the type is missing or no type.
pub(crate) fn kind_of(items: &[Item]) -> JoinKind
    ensures { result ≡ kind_of items.now }
{
    match text_at("type", items) {
        None => JoinKind::Left,
        Some(name) => match kind_named(name.as_str()) {
            None => JoinKind::Left,
            Some(kind) => kind,
        },
    }
}

// (Looker, LookML reference: relationship)
pub(crate) fn relation_named(name: &str) -> Option<Relation>
    ensures { result ≡ relation_named name.now }
{
    if name == "many_to_one" {
        Some(Relation::ManyToOne)
    } else if name == "one_to_one" {
        Some(Relation::OneToOne)
    } else if name == "one_to_many" {
        Some(Relation::OneToMany)
    } else if name == "many_to_many" {
        Some(Relation::ManyToMany)
    } else {
        None
    }
}

// `many_to_one` where the relationship is missing or none.
fn relation_of(items: &[Item]) -> Relation
    ensures { result ≡ relation_of items.now }
{
    match text_at("relationship", items) {
        None => Relation::ManyToOne,
        Some(name) => match relation_named(name.as_str()) {
            None => Relation::ManyToOne,
            Some(relation) => relation,
        },
    }
}
