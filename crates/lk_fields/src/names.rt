ghost use Rattle.std.specs.Prelude.{◌≡◌, IfOk, option_map};
ghost use Rattle.std.specs.Option.{option_and_then};
ghost use Rattle.lk_fields.specs.Scopes.{found_by, found_in, found_in_part, in_view, is_called, part_from, part_meant, part_named, split_name, view_at};

use crate::places::place_at;
use crate::scope::{Found, Scope, Sort, Writer};
use crate::view_names::in_view;
use lk_objects::DeclaredView;
use lk_types::Frame;
use lk_val::NoMemory;

/// The view of a part.
pub fn view_at<'a>(
    views: &'a [DeclaredView],
    scope: &Scope,
    part: usize,
) -> Option<&'a DeclaredView>
    ensures { option_map (λ v. v.now) result ≡ view_at views.now scope.now part }
{
    let part = scope.parts.as_slice().get(part)?;
    let view = part.view?;
    views.get(view as usize)
}

// The part of this name.
fn part_named(scope: &Scope, name: &str) -> Option<usize>
    ensures { result ≡ part_named scope.now name.now }
{
    scope
        .parts
        .as_slice()
        .iter()
        .position(|part| part.name.as_str() == name)
}

fn is_called(name: &str, view: Option<&DeclaredView>) -> bool
    ensures { result ≡ is_called name.now (option_map (λ v. v.now) view.entry) }
{
    match view {
        None => false,
        Some(view) => view.name.as_str() == name,
    }
}

fn part_from(views: &[DeclaredView], scope: &Scope, own: usize, name: &str) -> Option<usize>
    ensures { result ≡ part_from views.now scope.now own name.now }
{
    if is_called(name, view_at(views, scope, own)) {
        Some(own)
    } else {
        part_named(scope, name)
    }
}

/// The part that a view's name means in a text, or that a name without a view is of. In the text of a field the declared
/// name of its own view means the field's part, also where the explore knows the view by another name.
pub fn part_meant(
    views: &[DeclaredView],
    scope: &Scope,
    writer: Writer,
    view: Option<&str>,
) -> Option<usize>
    ensures { result ≡ part_meant views.now scope.now writer (option_map (λ v. v.now) view.entry) }
{
    match (writer, view) {
        (Writer::Field(own), None) => Some(own as usize),
        (Writer::Field(own), Some(name)) => part_from(views, scope, own as usize, name),
        (Writer::Explore, None) => Some(0),
        (Writer::Explore, Some(name)) => part_named(scope, name),
    }
}

/// The declared field that a name means in a text, whether or not the explore has it as a field. Numbers past 32 bits want
/// memory.
pub fn found_in(
    views: &[DeclaredView],
    scope: &Scope,
    writer: Writer,
    view: Option<&str>,
    name: &str,
    sort: Sort,
) -> Result<Option<Found>, NoMemory>
    ensures { IfOk result (λ found. found
        ≡ found_in views.now scope.now writer (option_map (λ v. v.now) view.entry) name.now sort) }
{
    match part_meant(views, scope, writer, view) {
        None => Ok(None),
        Some(part) => found_in_part(views, scope, name, sort, part),
    }
}

// The declared field of a part that a name means.
fn found_in_part(
    views: &[DeclaredView],
    scope: &Scope,
    name: &str,
    sort: Sort,
    part: usize,
) -> Result<Option<Found>, NoMemory>
    ensures { IfOk result (λ found. found ≡ found_in_part views.now scope.now name.now sort part) }
{
    match in_part(views, scope, name, sort, part) {
        None => Ok(None),
        Some((field, frame)) => Ok(Some(Found {
            place: place_at(part, field)?,
            frame,
        })),
    }
}

fn in_part(
    views: &[DeclaredView],
    scope: &Scope,
    name: &str,
    sort: Sort,
    part: usize,
) -> Option<(usize, Option<Frame>)>
    ensures { result ≡ option_and_then (in_view sort name.now) (view_at views.now scope.now part) }
{
    in_view(sort, name, view_at(views, scope, part)?)
}

/// A name as `view.name`, up to the first dot, or as `name`.
pub fn split_name(whole: &str) -> (Option<&str>, &str)
    ensures { (option_map (λ v. v.now) result.0, result.1.now) ≡ split_name whole.now }
{
    match whole.split_once('.') {
        None => (None, whole),
        Some((view, name)) => (Some(view), name),
    }
}

/// The declared field that a whole name means in a text, as `found_in` tells it of the name's two parts.
pub fn found_by(
    views: &[DeclaredView],
    scope: &Scope,
    writer: Writer,
    whole: &str,
    sort: Sort,
) -> Result<Option<Found>, NoMemory>
    ensures { IfOk result (λ found. found ≡ found_by views.now scope.now writer whole.now sort) }
{
    let (view, name) = split_name(whole);
    found_in(views, scope, writer, view, name, sort)
}
