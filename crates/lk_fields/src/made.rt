ghost use Rattle.std.specs.Prelude.{◌≡◌, ◌++◌, codes, map, Some};
ghost use Rattle.lk_val.specs.Texts.{is_same_text};
ghost use Rattle.lk_fields.specs.Scopes.{frame_made, frame_name, frame_of, framed_name, has_sort};

use crate::frame::frame_name;
use crate::scope::Sort;
use lk_objects::{DeclaredField, FieldSort};
use lk_types::Frame;

/// Whether a declaration makes fields of this sort.
pub fn has_sort(wanted: Sort, sort: FieldSort) -> bool
    ensures { result ≡ has_sort wanted sort }
{
    match sort {
        FieldSort::Measure(_) => wanted == Sort::Measure,
        FieldSort::Dimension(_) | FieldSort::Group => wanted == Sort::Dimension,
    }
}

/// The timeframe with which a declaration of this sort makes the name, none for a dimension or measure that has it; none at
/// all where it makes no such field.
pub fn frame_made(sort: Sort, name: &str, field: &DeclaredField) -> Option<Option<Frame>>
    ensures { result ≡ frame_made sort name.now field.now }
{
    if !has_sort(sort, field.sort) {
        return None;
    }
    if field.sort == FieldSort::Group {
        framed(field.name.as_str(), field.frames.as_slice(), name)
    } else if field.name.as_str() == name {
        Some(None)
    } else {
        None
    }
}

fn framed(group: &str, frames: &[Frame], name: &str) -> Option<Option<Frame>>
    ensures { result ≡ frame_of name.now (map (λ f. (framed_name group.now f, Some f)) frames.now) }
{
    for frame in frames {
        if is_framed(group.as_bytes(), *frame, name.as_bytes()) {
            return Some(Some(*frame));
        }
    }
    None
}

#[tactic(auto, using(crate::proofs::PrefixLaws::lacks, crate::proofs::PrefixLaws::behind))]
fn is_framed(group: &[u8], frame: Frame, name: &[u8]) -> bool
    ensures { result ≡ is_same_text (framed_name group.now frame) name.now }
{
    match name.strip_prefix(group) {
        None => false,
        Some(rest) => is_marked(frame, rest),
    }
}

// What is behind the group's name is an underscore and the timeframe.
#[tactic(auto, using(crate::proofs::PrefixLaws::lacks, crate::proofs::PrefixLaws::behind))]
fn is_marked(frame: Frame, rest: &[u8]) -> bool
    ensures { result ≡ is_same_text (codes "_" ++ frame_name frame) rest.now }
{
    match rest.strip_prefix(b"_") {
        None => false,
        Some(name) => name == frame_name(frame).as_bytes(),
    }
}
