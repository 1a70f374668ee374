ghost use Rattle.std.specs.Prelude.{◌≡◌, ◌++◌, IfOk, map};
ghost use Rattle.lk_formulas.specs.Formulas.{field_named, part_of};
ghost use Rattle.lk_formulas.specs.Referents.{column_referent, field_referent, numbered_referent, referent_of};

use crate::columns::column_named;
use lk_fields::{Found, Place, Scope, Sort, Writer, found_in, number_of};
use lk_objects::{DeclaredView, Reference};
use lk_types::{Frame, Schema};
use lk_val::{Items, NoMemory};
use std::alloc::Global;

// What a reference stands for, with its names looked up.
#[derive(Clone, Copy, PartialEq, Eq)]
pub(crate) enum Referent {
    // It names nothing that is there.
    Nothing,
    // The column of a part, by the numbers of both.
    Column(u32, u32),
    // The field of this number among all of the scope, and the timeframe where that is a dimension group.
    Field(usize, Option<Frame>),
}

// Where names are looked up: the places are those of all fields of the scope.
#[derive(Clone, Copy)]
pub(crate) struct Names<'a> {
    pub(crate) schema: &'a Schema,
    pub(crate) views: &'a [DeclaredView],
    pub(crate) scope: &'a Scope,
    pub(crate) places: &'a [Place],
}

// What the references of a text stand for, where their places need fields of this sort.
pub(crate) fn referents_of(
    alloc: Global,
    names: &Names,
    writer: Writer,
    sort: Sort,
    references: &[Reference],
) -> Result<Items<Referent>, NoMemory>
    ensures { IfOk result (λ referents. referents
        ≡ map (referent_of names.now.schema.now names.now.views.now names.now.scope.now names.now.places.now writer sort) references.now) }
{
    let mut referents = Items::new(alloc);
    for reference in references {
        referents.push(referent_of(names, writer, sort, reference)?)?;
    }
    Ok(referents)
}

fn referent_of(
    names: &Names,
    writer: Writer,
    sort: Sort,
    reference: &Reference,
) -> Result<Referent, NoMemory>
    ensures { IfOk result (λ referent. referent
        ≡ referent_of names.now.schema.now names.now.views.now names.now.scope.now names.now.places.now writer sort reference.now) }
{
    let Names {
        schema,
        views,
        scope,
        places,
    } = *names;
    match reference {
        Reference::Column(name) => {
            let part = part_of(writer);
            column_referent(
                part,
                column_named(schema, views, scope, part as usize, name.as_str()),
            )
        }
        Reference::Own(_) | Reference::Of(_, _) => Ok(field_referent(
            places,
            field_named(views, scope, writer, sort, reference)?,
        )),
    }
}

// The part that the columns of a text are of.
fn part_of(writer: Writer) -> u32
    ensures { result ≡ part_of writer }
{
    match writer {
        Writer::Field(part) => part,
        Writer::Explore => 0,
    }
}

// Numbers past 32 bits want memory.
fn column_referent(part: u32, column: Option<usize>) -> Result<Referent, NoMemory>
    ensures { IfOk result (λ referent. referent ≡ column_referent part column) }
{
    match column {
        None => Ok(Referent::Nothing),
        Some(column) => match u32::try_from(column) {
            Ok(column) => Ok(Referent::Column(part, column)),
            Err(_) => Err(NoMemory),
        },
    }
}

// The declared field that a reference names; a column is none.
fn field_named(
    views: &[DeclaredView],
    scope: &Scope,
    writer: Writer,
    sort: Sort,
    reference: &Reference,
) -> Result<Option<Found>, NoMemory>
    ensures { IfOk result (λ found. found ≡ field_named views.now scope.now writer sort reference.now) }
{
    match reference {
        Reference::Own(name) => found_in(views, scope, writer, None, name.as_str(), sort),
        Reference::Of(view, name) => {
            let view = Some(view.as_str());
            found_in(views, scope, writer, view, name.as_str(), sort)
        }
        Reference::Column(_) => Ok(None),
    }
}

fn field_referent(places: &[Place], found: Option<Found>) -> Referent
    ensures { result ≡ field_referent places.now found }
{
    match found {
        None => Referent::Nothing,
        Some(found) => numbered_referent(found.frame, number_of(places, found.place)),
    }
}

fn numbered_referent(frame: Option<Frame>, number: Option<usize>) -> Referent
    ensures { result ≡ numbered_referent frame number }
{
    match number {
        None => Referent::Nothing,
        Some(number) => Referent::Field(number, frame),
    }
}
