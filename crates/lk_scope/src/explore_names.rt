ghost use Rattle.std.specs.Prelude.{◌≡◌, IfOk};
ghost use Rattle.lk_fields.specs.Existing.{exists};
ghost use Rattle.lk_scope.specs.Told.{IsTold};
ghost use Rattle.lk_scope.specs.ExploreNames.{dimension_named, if_exists, measure_named};

use crate::scope_fields::ScopeFields;
use lk_fields::{Found, Place, Sort, Writer, found_by};
use lk_val::NoMemory;

impl ScopeFields<'_> {
    /// Whether a place is that of a declared field which is a field of the explore. (Looker, LookML reference: explore)
    pub fn exists(&self, place: Place) -> bool
        requires { IsTold self.now }
        ensures { result ≡ exists self.now.views.now self.now.scope.now place }
    {
        self.table.exists(place)
    }

    /// The dimension of the explore that a name in its own text means. A name without a view is one of the base view. (Looker,
    /// LookML reference: explore; lookd)
    pub fn dimension_named(&self, name: &str) -> Result<Option<Found>, NoMemory>
        requires { IsTold self.now }
        ensures { IfOk result (λ found. found ≡ dimension_named self.now.views.now self.now.scope.now name.now) }
    {
        let found = found_by(
            self.views,
            self.scope,
            Writer::Explore,
            name,
            Sort::Dimension,
        )?;
        Ok(self.if_exists(found))
    }

    /// The measure of the explore that a name in its own text means.
    pub fn measure_named(&self, name: &str) -> Result<Option<Found>, NoMemory>
        requires { IsTold self.now }
        ensures { IfOk result (λ found. found ≡ measure_named self.now.views.now self.now.scope.now name.now) }
    {
        let found = found_by(self.views, self.scope, Writer::Explore, name, Sort::Measure)?;
        Ok(self.if_exists(found))
    }

    /// A declared field, where it is one of the explore.
    pub fn if_exists(&self, found: Option<Found>) -> Option<Found>
        requires { IsTold self.now }
        ensures { result ≡ if_exists self.now.views.now self.now.scope.now found }
    {
        match found {
            None => None,
            Some(found) => {
                if self.exists(found.place) {
                    Some(found)
                } else {
                    None
                }
            }
        }
    }
}
