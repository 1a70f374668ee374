ghost use Rattle.std.specs.Prelude.{◌≡◌, IfOk};
ghost use Rattle.lk_scope.specs.Told.{IsTold};
ghost use Rattle.lk_scope.specs.Keys.{key_in, key_of, place_if_exists};

use crate::order::place_at;
use crate::scope_fields::ScopeFields;
use lk_fields::{Place, fields_at};
use lk_objects::DeclaredField;
use lk_val::NoMemory;

impl ScopeFields<'_> {
    /// The field that is a part's primary key; none where the part has none, or where its key names what is not in the
    /// explore. (Looker, LookML reference: primary_key)
    pub fn key_of(&self, part: usize) -> Result<Option<Place>, NoMemory>
        requires { IsTold self.now }
        ensures { IfOk result (λ key. key ≡ key_of self.now.views.now self.now.scope.now part) }
    {
        self.key_in(part, fields_at(self.views, self.scope, part))
    }

    fn key_in(&self, part: usize, fields: &[DeclaredField]) -> Result<Option<Place>, NoMemory>
        requires { IsTold self.now }
        ensures { IfOk result (λ key. key ≡ key_in self.now.views.now self.now.scope.now part 0 fields.now) }
    {
        for number in 0..fields.len() {
            if fields[number].is_key {
                return Ok(self.place_if_exists(place_at(part, number)?));
            }
        }
        Ok(None)
    }

    fn place_if_exists(&self, place: Place) -> Option<Place>
        requires { IsTold self.now }
        ensures { result ≡ place_if_exists self.now.views.now self.now.scope.now place }
    {
        if self.exists(place) {
            Some(place)
        } else {
            None
        }
    }
}
