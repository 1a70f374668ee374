ghost use Rattle.std.specs.Prelude.{◌≡◌, ◌++◌, IfOk, option_map};
ghost use Rattle.std.specs.List.{flat_map};
ghost use Rattle.lk_scope.specs.Pieces.{IsTested};
ghost use Rattle.lk_fields.specs.Scopes.{framed_name};
ghost use Rattle.lk_field_faults.specs.MadeNames.{framed_names, least_twice, lesser, names_made, names_of, twice_line};

use lk_fields::frame_name;
use lk_objects::{DeclaredField, FieldSort};
use lk_params::{Number, named_line};
use lk_types::Frame;
use lk_val::{Items, ModelFault, NoMemory, Text};
use std::alloc::Global;
use std::collections::BTreeSet;

// Tests that no two fields of a view make one name; of several such names the least is told.
pub(crate) fn test_names(
    alloc: Global,
    view: &str,
    fields: &[DeclaredField],
) -> Result<(), ModelFault>
    ensures { IsTested result (twice_line view.now fields.now) }
{
    let names = names_made(alloc, fields)?;
    match least_twice(alloc, names.as_slice())? {
        None => Ok(()),
        Some(name) => Err(ModelFault::Fault(named_line(alloc, Number::N1, view, name.as_str())?)),
    }
}

fn names_made(alloc: Global, fields: &[DeclaredField]) -> Result<Items<Text>, NoMemory>
    ensures { IfOk result (λ names. names ≡ names_made fields.now) }
{
    let mut names = Items::new(alloc);
    for field in fields {
        add_names(alloc, field, &mut names)?;
    }
    Ok(names)
}

fn add_names(alloc: Global, field: &DeclaredField, names: &mut Items<Text>) -> Result<(), NoMemory>
    ensures { IfOk result (λ _. names.new ≡ names.old ++ names_of field.now) }
{
    match field.sort {
        FieldSort::Group => {
            add_framed(alloc, field.name.as_str(), field.frames.as_slice(), names)
        }
        FieldSort::Dimension(_) | FieldSort::Measure(_) => {
            names.push(field.name.copy(alloc)?)?;
            Ok(())
        }
    }
}

// What a dimension group makes.
fn add_framed(
    alloc: Global,
    group: &str,
    frames: &[Frame],
    names: &mut Items<Text>,
) -> Result<(), NoMemory>
    ensures { IfOk result (λ _. names.new ≡ names.old ++ framed_names group.now frames.now) }
{
    for frame in frames {
        names.push(framed_name(alloc, group, *frame)?)?;
    }
    Ok(())
}

fn framed_name(alloc: Global, group: &str, frame: Frame) -> Result<Text, NoMemory>
    ensures { IfOk result (λ name. name ≡ framed_name group.now frame) }
{
    let frame = frame_name(frame);
    Ok(Text::from_string(format!(in alloc; "{group}_{frame}")?))
}

// The least of the names that stand more than once, in time n log n.
fn least_twice(alloc: Global, names: &[Text]) -> Result<Option<&Text>, NoMemory>
    ensures { IfOk result (λ least. option_map (λ t. t.now) least ≡ least_twice names.now) }
{
    let mut known = BTreeSet::new(alloc);
    let mut least = None;
    // From behind, so that each name is looked for among those after it.
    for place in (0..names.len()).rev() {
        let name = &names[place];
        if !known.insert(name.copy(alloc)?)? {
            least = Some(lesser(name, least));
        }
    }
    Ok(least)
}

fn lesser<'a>(name: &'a Text, other: Option<&'a Text>) -> &'a Text
    ensures { result.now ≡ lesser name.now (option_map (λ t. t.now) other.entry) }
{
    match other {
        None => name,
        Some(other) => { if other < name { other } else { name } }
    }
}
