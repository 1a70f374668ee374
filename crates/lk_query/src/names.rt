// The fields and measures of an explore by name and by number.

ghost use Rattle.std.specs.Prelude.{◌≡◌, IfOk, option_map, position};
ghost use Rattle.lk_val.specs.Memory.{IsUnlessMemory};
ghost use Rattle.lk_val.specs.Texts.{is_same_text};
ghost use Rattle.lk_types.specs.declared.model.Pick.TheVariants.{Mea};
ghost use Rattle.lk_semantics.specs.Answers.{measure_at};
ghost use Rattle.lk_semantics.specs.Rows.{field_at};
ghost use Rattle.lk_body.specs.Faults.{is_no_memory};
ghost use Rattle.lk_query.specs.Names.{limit_of, measure_named, named_sort, pick_kind, pick_named, picks_of, sorts_of};

use crate::field_names::FieldNames;
use lk_body::QueryFault;
use lk_types::{Explore, Kind, Pick, Sort};
use lk_val::{Items, NoMemory, Text};
use std::alloc::Global;

/// The limit, where it is of 1 to 5,000, or Q8. (lookd)
pub(crate) fn limit_of(limit: i64) -> Result<u32, QueryFault>
    ensures { result ≡ limit_of limit }
{
    if 1 <= limit && limit <= 5000 {
        Ok(limit as u32)
    } else {
        Err(QueryFault::Q8(limit))
    }
}

/// What the names pick, or Q4 for the first that is no field of the explore.
pub(crate) fn picks_of(
    alloc: Global,
    x: &Explore,
    names: &[Text],
) -> Result<Items<Pick>, QueryFault>
    ensures { IsUnlessMemory is_no_memory result (picks_of x.now names.now) }
{
    let known = FieldNames::of(x);
    let mut picks = Items::new(alloc);
    for name in names {
        let Some(pick) = pick_named(&known, name)? else {
            return Err(QueryFault::Q4(name.copy(alloc)?));
        };
        picks.push(pick)?;
    }
    Ok(picks)
}

/// The dimension of a name, or else the measure.
pub(crate) fn pick_named(known: &FieldNames, name: &Text) -> Result<Option<Pick>, NoMemory>
    ensures { IfOk result (λ pick. pick ≡ pick_named known.now.x.now name.now) }
{
    match known.field_place(name) {
        Some(f) => Ok(Some(Pick::Dim(number_of(f)?))),
        None => measure_named(known, name),
    }
}

fn measure_named(known: &FieldNames, name: &Text) -> Result<Option<Pick>, NoMemory>
    ensures { IfOk result (λ pick. pick ≡ option_map Mea (measure_named known.now.x.now name.now)) }
{
    match known.measure_place(name) {
        Some(m) => Ok(Some(Pick::Mea(number_of(m)?))),
        None => Ok(None),
    }
}

/// The place of an item as its number. No list in memory is longer than 32 bits can say, so a later place is want of
/// memory.
pub(crate) fn number_of(place: usize) -> Result<u32, NoMemory>
    ensures { IfOk result (λ number. number ≡ place) }
{
    match u32::try_from(place) {
        Ok(number) => Ok(number),
        Err(_) => Err(NoMemory),
    }
}

/// The name of a field; one that is not there has none.
pub(crate) fn field_name(x: &Explore, f: u32) -> &str
    ensures { result.now ≡ (field_at x.now f).name }
{
    match x.fields.as_slice().get(f as usize) {
        Some(field) => field.name.as_str(),
        None => "",
    }
}

/// The kind of the values of what is picked.
pub(crate) fn pick_kind(x: &Explore, on: Pick) -> Kind
    ensures { result ≡ pick_kind x.now on }
{
    match on {
        Pick::Dim(f) => field_kind(x, f),
        Pick::Mea(m) => measure_kind(x, m),
    }
}

fn field_kind(x: &Explore, f: u32) -> Kind
    ensures { result ≡ (field_at x.now f).kind }
{
    match x.fields.as_slice().get(f as usize) {
        Some(field) => field.kind,
        None => Kind::Text,
    }
}

fn measure_kind(x: &Explore, m: u32) -> Kind
    ensures { result ≡ (measure_at x.now m).kind }
{
    match x.measures.as_slice().get(m as usize) {
        Some(measure) => measure.kind,
        None => Kind::Number,
    }
}

/// The sorts by the places of their names among those that are asked for, or Q4 for the first that is not.
pub(crate) fn sorts_of(
    alloc: Global,
    fields: &[Text],
    sorts: &[(Text, bool)],
) -> Result<Items<Sort>, QueryFault>
    ensures { IsUnlessMemory is_no_memory result (sorts_of fields.now sorts.now) }
{
    let mut made = Items::new(alloc);
    for sort in sorts {
        let Some(named) = named_sort(fields, sort)? else {
            return Err(QueryFault::Q4(sort.0.copy(alloc)?));
        };
        made.push(named)?;
    }
    Ok(made)
}

fn named_sort(fields: &[Text], sort: &(Text, bool)) -> Result<Option<Sort>, NoMemory>
    ensures { IfOk result (λ named. named ≡ named_sort fields.now sort.now) }
{
    match name_place(fields, &sort.0) {
        None => Ok(None),
        Some(place) => Ok(Some(Sort {
            place: number_of(place)?,
            down: sort.1,
        })),
    }
}

fn name_place(names: &[Text], name: &Text) -> Option<usize>
    ensures { result ≡ position (is_same_text name.now) names.now }
{
    names.iter().position(|other| *name == *other)
}
