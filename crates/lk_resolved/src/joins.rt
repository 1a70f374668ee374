ghost use Rattle.std.specs.Prelude.{◌≡◌, ◌+◌, ◌++◌, IfOk, flat_map, option_map};
ghost use Rattle.std.specs.List.{position};
ghost use Rattle.lk_types.specs.Formula.{Column, Compare};
ghost use Rattle.lk_types.specs.declared.expr.Comparison.TheVariants as comparison;
ghost use Rattle.lk_dated.specs.Dated.{compare_sides, compared};
ghost use Rattle.lk_formulas.specs.FormulaKinds.{kinds_in};
ghost use Rattle.lk_val.specs.Texts.{is_same_text};
ghost use Rattle.lk_resolved.specs.Explores.{condition_by_key, condition_with, join_with, joins_from, joins_named, joins_of_name, key_condition, on_with};
ghost use Rattle.lk_resolved.specs.Told.{IsModelTold};

use crate::formulas::{ModelFields, Told};
use lk_dated::dated;
use lk_fields::{Found, Place, Writer};
use lk_objects::{Code, DeclaredJoin};
use lk_types::{Comparison, Expr, Join, JoinKind, Node};
use lk_val::{Items, NoMemory, Text};
use std::alloc::Global;

// The joins of an explore, as they are declared.
pub(crate) fn joins(
    alloc: Global,
    model: &ModelFields,
    joins: &[DeclaredJoin],
) -> Result<Items<Join>, NoMemory>
    requires told { IsModelTold model.now }
    ensures { IfOk result (λ made. made
        ≡ joins_from model.now.fields.now.schema.now model.now.fields.now.views.now model.now.fields.now.scope.now model.now.fields.now.columns.now joins.now 1 joins.now) }
{
    let mut made = Items::new(alloc);
    // The base view is part 0.
    let mut part = 1usize;
    for join in joins {
        made.push(join_with(alloc, model, joins, part, join)?)?;
        part += 1;
    }
    Ok(made)
}

fn join_with(
    alloc: Global,
    model: &ModelFields,
    joins: &[DeclaredJoin],
    part: usize,
    join: &DeclaredJoin,
) -> Result<Join, NoMemory>
    requires told { IsModelTold model.now }
    ensures { IfOk result (λ made. made
        ≡ join_with model.now.fields.now.schema.now model.now.fields.now.views.now model.now.fields.now.scope.now model.now.fields.now.columns.now joins.now part join.now) }
{
    Ok(Join {
        kind: join.kind,
        relation: join.relation,
        on: on_with(alloc, model, part, join)?,
        required: joins_named(alloc, joins, join.required.as_slice())?,
    })
}

// The condition of a join; a cross join has none.
fn on_with(
    alloc: Global,
    model: &ModelFields,
    part: usize,
    join: &DeclaredJoin,
) -> Result<Option<Expr>, NoMemory>
    requires told { IsModelTold model.now }
    ensures { IfOk result (λ on. on
        ≡ on_with join.now.kind (condition_with model.now.fields.now.schema.now model.now.fields.now.views.now model.now.fields.now.scope.now model.now.fields.now.columns.now part join.now.foreign_key join.now.on)) }
{
    match join.kind {
        JoinKind::Cross => Ok(None),
        _ => condition_with(alloc, model, part, &join.foreign_key, &join.on),
    }
}

fn condition_with(
    alloc: Global,
    model: &ModelFields,
    part: usize,
    key: &Option<Text>,
    on: &Code,
) -> Result<Option<Expr>, NoMemory>
    requires told { IsModelTold model.now }
    ensures { IfOk result (λ e. e
        ≡ condition_with model.now.fields.now.schema.now model.now.fields.now.views.now model.now.fields.now.scope.now model.now.fields.now.columns.now part key.now on.now) }
{
    match on {
        Code::Expr(_) => Ok(Some(model.code(alloc, Writer::Explore, on)?)),
        _ => condition_by_key(alloc, model, part, key),
    }
}

// The field that `foreign_key` names equals the joined view's primary key.
fn condition_by_key(
    alloc: Global,
    model: &ModelFields,
    part: usize,
    key: &Option<Text>,
) -> Result<Option<Expr>, NoMemory>
    requires told { IsModelTold model.now }
    ensures { IfOk result (λ e. e
        ≡ condition_by_key model.now.fields.now.schema.now model.now.fields.now.views.now model.now.fields.now.scope.now model.now.fields.now.columns.now part key.now) }
{
    match key {
        None => Ok(None),
        Some(name) => {
            let found = model.fields.dimension_named(name.as_str())?;
            let key = model.fields.key_of(part)?;
            key_condition(alloc, model, found, key)
        }
    }
}

fn key_condition(
    alloc: Global,
    model: &ModelFields,
    found: Option<Found>,
    key: Option<Place>,
) -> Result<Option<Expr>, NoMemory>
    requires told { IsModelTold model.now }
    ensures { IfOk result (λ e. e
        ≡ key_condition model.now.fields.now.schema.now model.now.fields.now.views.now model.now.fields.now.scope.now model.now.fields.now.columns.now found key) }
{
    match (found, key) {
        (Some(found), Some(key)) => {
            let a = model.told_found(alloc, found)?;
            let b = model.told_field(alloc, key)?;
            Ok(Some(equated(alloc, model, a, b)?))
        }
        _ => Ok(None),
    }
}

// The numbers of the joins of some names.
pub(crate) fn joins_named(
    alloc: Global,
    joins: &[DeclaredJoin],
    names: &[Text],
) -> Result<Items<u32>, NoMemory>
    ensures { IfOk result (λ numbers. numbers ≡ joins_named joins.now names.now) }
{
    let mut numbers = Items::new(alloc);
    for name in names {
        add_join(joins, name.as_str(), &mut numbers)?;
    }
    Ok(numbers)
}

fn add_join(joins: &[DeclaredJoin], name: &str, numbers: &mut Items<u32>) -> Result<(), NoMemory>
    ensures { IfOk result (λ _. numbers.new ≡ numbers.old ++ joins_of_name joins.now name.now) }
{
    match position_of(joins, name) {
        None => Ok(()),
        Some(number) => numbers.push(u32::try_from(number).map_err(|_| NoMemory)?),
    }
}

fn position_of(joins: &[DeclaredJoin], name: &str) -> Option<usize>
    ensures { result ≡ position (λ join. is_same_text join.name name.now) joins.now }
{
    joins.iter().position(|join| join.name.as_str() == name)
}

// Two formulas that are equal, where a text literal beside a day or a moment is read.
fn equated(alloc: Global, model: &ModelFields, a: Told, b: Told) -> Result<Expr, NoMemory>
    requires told { IsModelTold model.now }
    requires a { a.kinds ≡ kinds_in model.now.fields.now.columns.now a.e }
    requires b { b.kinds ≡ kinds_in model.now.fields.now.columns.now b.e }
    ensures { IfOk result (λ e. e ≡ compare_sides comparison.Equal (compared (kinds_in model.now.fields.now.columns.now) a.e b.e)) }
{
    let equation = equation(alloc)?;
    let sides = [a.side(), b.side()];
    let by = [a.e, b.e];
    dated(alloc, &equation, &sides, &by)
}

// The first column of the first part equals the second.
fn equation(alloc: Global) -> Result<Expr, NoMemory>
    ensures { IfOk result (λ e. e ≡ Compare comparison.Equal (Column 0 0) (Column 0 1)) }
{
    let a = Expr::leaf(alloc, Node::Column(0, 0))?;
    let b = Expr::leaf(alloc, Node::Column(0, 1))?;
    Expr::binary(Node::Compare(Comparison::Equal), a, b)
}
