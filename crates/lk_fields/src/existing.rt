ghost use Rattle.std.specs.Prelude.{◌≡◌, IfOk};
ghost use Rattle.lk_fields.specs.Existing.{all_places};
ghost use Rattle.lk_fields.specs.Rows.{marks_of};

use crate::marks::{is_unmarked, last_marks};
use crate::places::all_places;
use crate::reaching::reaches_itself;
use crate::rows::{Row, Rule, number_of, rows_of};
use crate::scope::{Place, Scope};
use lk_objects::DeclaredView;
use lk_val::{Items, NoMemory};
use std::alloc::Global;

/// The declared fields of a scope, and which of them are no fields of it: a text of theirs names what is not there.
#[derive(Drop)]
pub struct FieldSet {
    places: Items<Place>,
    rows: Items<Row>,
    lost: Items<bool>,
    ending: Items<bool>,
}

impl FieldSet {
    ghost use Rattle.std.specs.Prelude.{◌≡◌, IfOk, List};
    ghost use Rattle.lk_objects.specs.declared.view.DeclaredView.{DeclaredView};
    ghost use Rattle.lk_fields.specs.declared.scope.Scope.{Scope};
    ghost use Rattle.lk_fields.specs.Existing.{exists, is_on_cycle, reaches_cycle};
    ghost use Rattle.lk_fields.specs.FieldSets.{IsSetOf};

    /// The fields of a scope, computed once for all questions about it.
    pub fn of(alloc: Global, views: &[DeclaredView], scope: &Scope) -> Result<FieldSet, NoMemory>
        ensures { IfOk result (IsSetOf views.now scope.now) }
    {
        let places = all_places(alloc, views, scope)?;
        let lost = marks_by(alloc, Rule::Loses, views, scope, places.as_slice())?;
        let rows = rows_of(alloc, Rule::Ends, views, scope, places.as_slice())?;
        let ending = last_marks(alloc, Rule::Ends, rows.as_slice())?;
        Ok(FieldSet {
            places,
            rows,
            lost,
            ending,
        })
    }

    /// Whether a place is that of a declared field which is a field of the scope: all that its text names is there, and so
    /// on. (Looker, LookML reference: explore, fields)
    pub fn exists(&self, place: Place) -> bool
        ensures { (views : List DeclaredView) (scope : Scope) → IsSetOf views scope self.now
            → result ≡ exists views scope place }
    {
        is_unmarked(
            self.lost.as_slice(),
            number_of(self.places.as_slice(), place),
        )
    }

    /// Whether a place is that of a declared field which stands on a cycle of references or reaches one, so that its
    /// references come to no end.
    pub fn reaches_cycle(&self, place: Place) -> bool
        ensures { (views : List DeclaredView) (scope : Scope) → IsSetOf views scope self.now
            → result ≡ reaches_cycle views scope place }
    {
        is_unmarked(
            self.ending.as_slice(),
            number_of(self.places.as_slice(), place),
        )
    }

    /// Whether a place is that of a declared field which refers to itself through any number of references. A search that
    /// visits each field at most once, and none where the field reaches no cycle.
    pub fn is_on_cycle(&self, alloc: Global, place: Place) -> Result<bool, NoMemory>
        ensures { (views : List DeclaredView) (scope : Scope) → IsSetOf views scope self.now
            → IfOk result (λ is. is ≡ is_on_cycle views scope place) }
    {
        if !self.reaches_cycle(place) {
            return Ok(false);
        }
        match number_of(self.places.as_slice(), place) {
            None => Ok(false),
            Some(number) => reaches_itself(alloc, self.rows.as_slice(), number),
        }
    }
}

// The marks of all fields of a scope.
fn marks_by(
    alloc: Global,
    rule: Rule,
    views: &[DeclaredView],
    scope: &Scope,
    places: &[Place],
) -> Result<Items<bool>, NoMemory>
    ensures { places.now ≡ all_places views.now scope.now → IfOk result (λ marks. marks ≡ marks_of rule views.now scope.now) }
{
    let rows = rows_of(alloc, rule, views, scope, places)?;
    last_marks(alloc, rule, rows.as_slice())
}
