ghost use Rattle.std.specs.Prelude.{◌≡◌, option_map};
ghost use Rattle.lk_fields.specs.Scopes.{in_view};

use crate::made::frame_made;
use crate::scope::Sort;
use lk_objects::DeclaredView;
use lk_types::Frame;

/// The first declaration of this sort in a view that makes the name, by its number, with the timeframe.
pub fn in_view(sort: Sort, name: &str, view: &DeclaredView) -> Option<(usize, Option<Frame>)>
    ensures { result ≡ in_view sort name.now view.now }
{
    let fields = view.fields.as_slice();
    for number in 0..fields.len() {
        if let Some(frame) = frame_made(sort, name, &fields[number]) {
            return Some((number, frame));
        }
    }
    None
}
