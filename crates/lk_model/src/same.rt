ghost use Rattle.std.specs.Prelude.{◌≡◌, true};

use crate::view_kinds::ViewKinds;
use lk_types::Kind;
use lk_val::Items;

// Whether two rounds give the same kinds.
pub(crate) fn are_same(a: &ViewKinds, b: &ViewKinds) -> bool
    ensures { result ≡ true → a.now ≡ b.now }
{
    are_all_same(a.views.as_slice(), b.views.as_slice())
}

fn are_all_same(a: &[Items<Option<Kind>>], b: &[Items<Option<Kind>>]) -> bool
    ensures { result ≡ true → a.now ≡ b.now }
{
    if a.len() != b.len() {
        return false;
    }
    for number in 0..a.len() {
        if !are_kinds_same(a[number].as_slice(), b[number].as_slice()) {
            return false;
        }
    }
    true
}

fn are_kinds_same(a: &[Option<Kind>], b: &[Option<Kind>]) -> bool
    ensures { result ≡ true → a.now ≡ b.now }
{
    if a.len() != b.len() {
        return false;
    }
    for number in 0..a.len() {
        if !is_same_kind(a[number], b[number]) {
            return false;
        }
    }
    true
}

fn is_same_kind(a: Option<Kind>, b: Option<Kind>) -> bool
    ensures { result ≡ true → a ≡ b }
{
    a == b
}
