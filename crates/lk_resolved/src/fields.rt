ghost use Rattle.std.specs.Prelude.{◌≡◌, IfOk, map, option_map};
ghost use Rattle.lk_formulas.specs.FieldKinds.{field_kind, or_text};
ghost use Rattle.lk_formulas.specs.declared.columns.UnknownColumn.TheVariants as unknown_column;
ghost use Rattle.lk_resolved.specs.Fields.{field_with, shape_if, shape_with};
ghost use Rattle.lk_resolved.specs.Numbers.{AreNamed};
ghost use Rattle.lk_resolved.specs.Told.{IsModelTold};

use crate::formulas::ModelFields;
use crate::names::{Named, NamedDimension};
use lk_fields::{Found, field_at};
use lk_objects::{DeclaredField, DimensionType, FieldSort};
use lk_types::{Field, Frame, Kind, Shape};
use lk_val::{Items, NoMemory};
use std::alloc::Global;

// The dimensions of an explore.
pub(crate) fn fields(
    alloc: Global,
    model: &ModelFields,
    named: &Named,
) -> Result<Items<Field>, NoMemory>
    requires told { IsModelTold model.now }
    requires named { AreNamed model.now.fields.now.views.now model.now.fields.now.scope.now named.now }
    ensures { IfOk result (λ fields. fields
        ≡ map (field_with model.now.fields.now.schema.now model.now.fields.now.views.now model.now.fields.now.scope.now model.now.fields.now.columns.now) named.now.dimensions) }
{
    let mut fields = Items::new(alloc);
    for dimension in named.dimensions.as_slice() {
        fields.push(field_with(alloc, model, named, dimension)?)?;
    }
    Ok(fields)
}

fn field_with(
    alloc: Global,
    model: &ModelFields,
    named: &Named,
    dimension: &NamedDimension,
) -> Result<Field, NoMemory>
    requires told { IsModelTold model.now }
    requires named { AreNamed model.now.fields.now.views.now model.now.fields.now.scope.now named.now }
    ensures { IfOk result (λ field. field
        ≡ field_with model.now.fields.now.schema.now model.now.fields.now.views.now model.now.fields.now.scope.now model.now.fields.now.columns.now dimension.now) }
{
    let place = dimension.found.place;
    let group = named.group(place)?;
    let declared = field_at(model.fields.views, model.fields.scope, place);
    let name = dimension.name.copy(alloc)?;
    let shape = shape_if(alloc, group, dimension.found.frame, declared)?;
    let expr = model.field(alloc, place)?;
    Ok(Field {
        name,
        part: place.part,
        kind: kind_of(model, dimension.found),
        expr,
        shape,
    })
}

// The kind of a dimension: text where it can't be told, which no project without a fault has.
fn kind_of(model: &ModelFields, found: Found) -> Kind
    requires told { IsModelTold model.now }
    ensures { result ≡ or_text (field_kind model.now.fields.now.schema.now model.now.fields.now.views.now model.now.fields.now.scope.now model.now.fields.now.columns.now unknown_column.Kept found) }
{
    let kind = model
        .kept
        .field_kind(model.fields.views, model.fields.scope, found);
    match kind {
        None => Kind::Text,
        Some(kind) => kind,
    }
}

fn shape_if(
    alloc: Global,
    group: u32,
    frame: Option<Frame>,
    field: Option<&DeclaredField>,
) -> Result<Shape, NoMemory>
    ensures { IfOk result (λ shape. shape ≡ shape_if group frame (option_map (λ f. f.now) field.entry)) }
{
    match field {
        None => Ok(Shape::Plain),
        Some(field) => shape_with(alloc, group, frame, field),
    }
}

// A tier has its bounds, and a timeframe the number of its group.
fn shape_with(
    alloc: Global,
    group: u32,
    frame: Option<Frame>,
    field: &DeclaredField,
) -> Result<Shape, NoMemory>
    ensures { IfOk result (λ shape. shape ≡ shape_with group frame field.now.sort field.now.tiers) }
{
    match (frame, field.sort) {
        (Some(frame), _) => Ok(Shape::Frame(group, frame)),
        (None, FieldSort::Dimension(Some(DimensionType::Tier))) => {
            Ok(Shape::Tier(field.tiers.copy_plain(alloc)?))
        }
        (None, _) => Ok(Shape::Plain),
    }
}
