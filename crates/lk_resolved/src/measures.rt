ghost use Rattle.std.specs.Prelude.{◌≡◌, ◌++◌, IfOk, flat_map};
ghost use Rattle.lk_fields.specs.declared.scope.Writer.TheVariants as writer;
ghost use Rattle.lk_formulas.specs.FieldKinds.{measure_kind};
ghost use Rattle.lk_formulas.specs.declared.columns.UnknownColumn.TheVariants as unknown_column;
ghost use Rattle.lk_resolved.specs.Fields.{filters_if, key_if, measure_at, measure_with, number_with, op_with, or_number, value_if};
ghost use Rattle.lk_resolved.specs.Filters.{filters_of_part};
ghost use Rattle.lk_resolved.specs.Formulas.{code_formula, field_formula};
ghost use Rattle.lk_resolved.specs.Numbers.{AreNamed};
ghost use Rattle.lk_resolved.specs.Told.{IsModelTold};

use crate::filters::filters_of_part;
use crate::formulas::ModelFields;
use crate::names::{Named, NamedMeasure};
use crate::number::number_with;
use lk_fields::{Place, Writer, field_at};
use lk_objects::{Code, DeclaredField, FieldSort, FilterText};
use lk_types::{Expr, Filter, Kind, Measure, NumExpr, Op};
use lk_val::{Items, NoMemory};
use std::alloc::Global;

// The measures of an explore.
pub(crate) fn measures(
    alloc: Global,
    model: &ModelFields,
    named: &Named,
) -> Result<Items<Measure>, NoMemory>
    requires told { IsModelTold model.now }
    requires named { AreNamed model.now.fields.now.views.now model.now.fields.now.scope.now named.now }
    ensures { IfOk result (λ measures. measures
        ≡ flat_map (measure_at model.now.fields.now.schema.now model.now.fields.now.views.now model.now.fields.now.scope.now model.now.fields.now.columns.now) named.now.measures) }
{
    let mut measures = Items::new(alloc);
    for measure in named.measures.as_slice() {
        add_measure(alloc, model, named, measure, &mut measures)?;
    }
    Ok(measures)
}

fn add_measure(
    alloc: Global,
    model: &ModelFields,
    named: &Named,
    measure: &NamedMeasure,
    measures: &mut Items<Measure>,
) -> Result<(), NoMemory>
    requires told { IsModelTold model.now }
    requires named { AreNamed model.now.fields.now.views.now model.now.fields.now.scope.now named.now }
    ensures { IfOk result (λ _. measures.new
        ≡ measures.old ++ measure_at model.now.fields.now.schema.now model.now.fields.now.views.now model.now.fields.now.scope.now model.now.fields.now.columns.now measure.now) }
{
    match field_at(model.fields.views, model.fields.scope, measure.place) {
        None => Ok(()),
        Some(field) => measures.push(measure_with(alloc, model, named, measure, field)?),
    }
}

fn measure_with(
    alloc: Global,
    model: &ModelFields,
    named: &Named,
    measure: &NamedMeasure,
    field: &DeclaredField,
) -> Result<Measure, NoMemory>
    requires told { IsModelTold model.now }
    requires named { AreNamed model.now.fields.now.views.now model.now.fields.now.scope.now named.now }
    ensures { IfOk result (λ made. made
        ≡ measure_with model.now.fields.now.schema.now model.now.fields.now.views.now model.now.fields.now.scope.now model.now.fields.now.columns.now measure.now field.now) }
{
    let place = measure.place;
    let op = op_with(field.sort);
    let name = measure.name.copy(alloc)?;
    let filters = filters_if(
        alloc,
        model,
        named,
        op,
        place.part,
        field.filters.as_slice(),
    )?;
    let terms = terms_with(alloc, model, named, place, op, field)?;
    Ok(Measure {
        name,
        part: place.part,
        op,
        kind: kind_of(model, place),
        value: terms.value,
        key: terms.key,
        filters,
        number: terms.number,
    })
}

// The expressions that a measure computes with.
#[derive(Drop)]
struct Terms {
    value: Option<Expr>,
    key: Option<Expr>,
    number: Option<NumExpr>,
}

fn terms_with(
    alloc: Global,
    model: &ModelFields,
    named: &Named,
    place: Place,
    op: Op,
    field: &DeclaredField,
) -> Result<Terms, NoMemory>
    requires told { IsModelTold model.now }
    requires named { AreNamed model.now.fields.now.views.now model.now.fields.now.scope.now named.now }
    ensures value { IfOk result (λ terms. terms.value
        ≡ value_if op (field_formula model.now.fields.now.schema.now model.now.fields.now.views.now model.now.fields.now.scope.now model.now.fields.now.columns.now place)) }
    ensures key { IfOk result (λ terms. terms.key
        ≡ key_if op (code_formula model.now.fields.now.schema.now model.now.fields.now.views.now model.now.fields.now.scope.now model.now.fields.now.columns.now (writer.Field place.part) field.now.key)) }
    ensures number { IfOk result (λ terms. terms.number
        ≡ number_with model.now.fields.now.views.now model.now.fields.now.scope.now place.part field.now.sql) }
{
    let number = number_with(alloc, model.fields, named, place.part, &field.sql)?;
    let value = value_if(alloc, model, op, place)?;
    let key = key_if(alloc, model, op, place.part, &field.key)?;
    Ok(Terms { value, key, number })
}

fn op_with(sort: FieldSort) -> Op
    ensures { result ≡ op_with sort }
{
    match sort {
        FieldSort::Measure(Some(op)) => op,
        _ => Op::Count,
    }
}

fn kind_of(model: &ModelFields, place: Place) -> Kind
    requires told { IsModelTold model.now }
    ensures { result ≡ or_number (measure_kind model.now.fields.now.schema.now model.now.fields.now.views.now model.now.fields.now.scope.now model.now.fields.now.columns.now unknown_column.Kept place) }
{
    let kind = model
        .kept
        .measure_kind(model.fields.views, model.fields.scope, place);
    match kind {
        None => Kind::Number,
        Some(kind) => kind,
    }
}

// The value that a measure computes with: none of a count and of a number.
fn value_if(
    alloc: Global,
    model: &ModelFields,
    op: Op,
    place: Place,
) -> Result<Option<Expr>, NoMemory>
    requires told { IsModelTold model.now }
    ensures { IfOk result (λ value. value
        ≡ value_if op (field_formula model.now.fields.now.schema.now model.now.fields.now.views.now model.now.fields.now.scope.now model.now.fields.now.columns.now place)) }
{
    match op {
        Op::Count | Op::Number => Ok(None),
        _ => Ok(Some(model.field(alloc, place)?)),
    }
}

// The key of a measure over distinct keys of its own.
fn key_if(
    alloc: Global,
    model: &ModelFields,
    op: Op,
    part: u32,
    key: &Code,
) -> Result<Option<Expr>, NoMemory>
    requires told { IsModelTold model.now }
    ensures { IfOk result (λ e. e
        ≡ key_if op (code_formula model.now.fields.now.schema.now model.now.fields.now.views.now model.now.fields.now.scope.now model.now.fields.now.columns.now (writer.Field part) key.now)) }
{
    match op {
        Op::SumDistinct | Op::AverageDistinct => {
            Ok(Some(model.code(alloc, Writer::Field(part), key)?))
        }
        _ => Ok(None),
    }
}

// The filters of a measure; those of a number have no effect.
fn filters_if(
    alloc: Global,
    model: &ModelFields,
    named: &Named,
    op: Op,
    part: u32,
    filters: &[FilterText],
) -> Result<Items<(u32, Filter)>, NoMemory>
    requires told { IsModelTold model.now }
    ensures { IfOk result (λ read. read
        ≡ filters_if op (filters_of_part model.now.fields.now.views.now model.now.fields.now.scope.now named.now.dimensions part filters.now)) }
{
    match op {
        Op::Number => Ok(Items::new(alloc)),
        _ => filters_of_part(alloc, model.fields, named, part, filters),
    }
}
