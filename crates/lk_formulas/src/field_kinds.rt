use crate::columns::{ColumnKinds, UnknownColumn};
use crate::sort_kinds::{
    dimension_kind, is_no_number, is_number, kind_of_measure, misses_kind, time_kind, value_kind,
};
use crate::table::FieldTable;
use lk_fields::{Found, Place, Scope, Writer, field_at, referred};
use lk_objects::{Code, DeclaredField, DeclaredView};
use lk_types::{Kind, KindSet, Schema};
use lk_val::NoMemory;
use std::alloc::Global;

impl FieldTable {
    ghost use Rattle.std.specs.Prelude.{◌≡◌, ◌||◌, IfOk, List};
    ghost use Rattle.std.specs.List.{list_any};
    ghost use Rattle.lk_types.specs.declared.schema.Schema.{Schema};
    ghost use Rattle.lk_objects.specs.declared.view.DeclaredView.{DeclaredView};
    ghost use Rattle.lk_fields.specs.declared.scope.Scope.{Scope};
    ghost use Rattle.lk_formulas.specs.declared.columns.ColumnKinds.{ColumnKinds};
    ghost use Rattle.lk_formulas.specs.declared.columns.UnknownColumn.{UnknownColumn};
    ghost use Rattle.lk_formulas.specs.FieldKinds.{extreme_kind, field_clashes, field_kind, field_kinds, group_kind, is_sure, key_clashes, measure_kind, sort_clashes, takes_no_number};
    ghost use Rattle.lk_formulas.specs.Resolved.{IsTableOf};

    /// The kind of a time group, if it can be told: a day or a moment, and a moment where its expression gives none of them.
    /// (Looker, LookML reference: dimension_group; lookd)
    pub fn group_kind(&self, place: Place) -> Option<Kind>
        ensures { (schema : Schema) (views : List DeclaredView) (scope : Scope) (columns : ColumnKinds) (u : UnknownColumn) → IsTableOf schema views scope columns u self.now
            → result ≡ group_kind schema views scope columns u place }
    {
        time_kind(self.field_kinds(place), self.is_sure(place))
    }

    /// The kind of the values of a `min` or `max`, if it can be told: text where its expression gives none. (Looker, LookML
    /// reference: measure types; lookd)
    pub fn extreme_kind(&self, place: Place) -> Option<Kind>
        ensures { (schema : Schema) (views : List DeclaredView) (scope : Scope) (columns : ColumnKinds) (u : UnknownColumn) → IsTableOf schema views scope columns u self.now
            → result ≡ extreme_kind schema views scope columns u place }
    {
        value_kind(self.field_kinds(place), self.is_sure(place))
    }

    /// The kind of a dimension, if it can be told: that of its type, or of its timeframe. A measure has none here. (Looker,
    /// LookML reference: type, timeframes)
    pub fn field_kind(&self, views: &[DeclaredView], scope: &Scope, found: Found) -> Option<Kind>
        ensures { (schema : Schema) (columns : ColumnKinds) (u : UnknownColumn) → IsTableOf schema views.now scope.now columns u self.now
            → result ≡ field_kind schema views.now scope.now columns u found }
    {
        match field_at(views, scope, found.place) {
            None => None,
            Some(field) => dimension_kind(field.sort, found.frame, self.group_kind(found.place)),
        }
    }

    /// The kind of a measure's value, if it can be told: a number but for a `min` or `max`. (Looker, LookML reference:
    /// measure types)
    pub fn measure_kind(&self, views: &[DeclaredView], scope: &Scope, place: Place) -> Option<Kind>
        ensures { (schema : Schema) (columns : ColumnKinds) (u : UnknownColumn) → IsTableOf schema views.now scope.now columns u self.now
            → result ≡ measure_kind schema views.now scope.now columns u place }
    {
        match field_at(views, scope, place) {
            None => None,
            Some(field) => kind_of_measure(field.sort, self.extreme_kind(place)),
        }
    }

    /// Whether kinds clash at a field: its expression has not the kind that its type needs, a measure of type number takes
    /// one that is no number, or kinds clash in its `sql_distinct_key`. A field that reaches a cycle clashes by its key
    /// alone, and a measure of type number also by a measure that it takes. (Looker, LookML reference: type, sql_distinct_key; lookd)
    pub fn field_clashes(
        &self,
        alloc: Global,
        schema: &Schema,
        views: &[DeclaredView],
        scope: &Scope,
        columns: &ColumnKinds,
        unknown: UnknownColumn,
        place: Place,
        field: &DeclaredField,
    ) -> Result<bool, NoMemory>
        ensures { IsTableOf schema.now views.now scope.now columns.now unknown self.now
            → IfOk result (λ clashes. clashes ≡ field_clashes schema.now views.now scope.now columns.now unknown place field.now) }
    {
        let in_key = self.key_clashes(
            alloc, schema, views, scope, columns, unknown, place, &field.key,
        )?;
        Ok(self.sort_clashes(alloc, views, scope, place, field)? || in_key)
    }

    // Whether the expression has not the kind that the field's type needs.
    fn sort_clashes(
        &self,
        alloc: Global,
        views: &[DeclaredView],
        scope: &Scope,
        place: Place,
        field: &DeclaredField,
    ) -> Result<bool, NoMemory>
        ensures { (schema : Schema) (columns : ColumnKinds) (u : UnknownColumn) → IsTableOf schema views.now scope.now columns u self.now
            → IfOk result (λ clashes. clashes ≡ sort_clashes schema views.now scope.now columns u place field.now) }
    {
        if is_number(field.sort) {
            let found = referred(alloc, views, scope, place.part, field)?;
            Ok(self.take_no_numbers(views, scope, found.as_slice()))
        } else {
            Ok(misses_kind(field.sort, self.field_kinds(place)))
        }
    }

    // Whether one of some measures is no number.
    fn take_no_numbers(
        &self,
        views: &[DeclaredView],
        scope: &Scope,
        found: &[Option<Found>],
    ) -> bool
        ensures { (schema : Schema) (columns : ColumnKinds) (u : UnknownColumn) → IsTableOf schema views.now scope.now columns u self.now
            → result ≡ list_any (takes_no_number schema views.now scope.now columns u) found.now }
    {
        for name in found {
            if self.takes_no_number(views, scope, *name) {
                return true;
            }
        }
        false
    }

    fn takes_no_number(&self, views: &[DeclaredView], scope: &Scope, found: Option<Found>) -> bool
        ensures { (schema : Schema) (columns : ColumnKinds) (u : UnknownColumn) → IsTableOf schema views.now scope.now columns u self.now
            → result ≡ takes_no_number schema views.now scope.now columns u found }
    {
        match found {
            None => false,
            Some(found) => is_no_number(self.measure_kind(views, scope, found.place)),
        }
    }

    // Whether kinds clash in a field's `sql_distinct_key`.
    fn key_clashes(
        &self,
        alloc: Global,
        schema: &Schema,
        views: &[DeclaredView],
        scope: &Scope,
        columns: &ColumnKinds,
        unknown: UnknownColumn,
        place: Place,
        key: &Code,
    ) -> Result<bool, NoMemory>
        ensures { IsTableOf schema.now views.now scope.now columns.now unknown self.now
            → IfOk result (λ clashes. clashes ≡ key_clashes schema.now views.now scope.now columns.now unknown place.part key.now) }
    {
        match key {
            Code::Expr(_) => {
                let writer = Writer::Field(place.part);
                let made = self.code(alloc, schema, views, scope, columns, unknown, writer, key)?;
                Ok(made.kinds.is_empty())
            }
            _ => Ok(false),
        }
    }

    // The kinds that a field's expression may have; every kind where it reaches a cycle.
    fn field_kinds(&self, place: Place) -> KindSet
        ensures { (schema : Schema) (views : List DeclaredView) (scope : Scope) (columns : ColumnKinds) (u : UnknownColumn) → IsTableOf schema views scope columns u self.now
            → result ≡ field_kinds schema views scope columns u place }
    {
        match self.kept(place) {
            None => KindSet::every(),
            Some(field) => field.code.kinds,
        }
    }

    // Whether all that stands in it is known.
    fn is_sure(&self, place: Place) -> bool
        ensures { (schema : Schema) (views : List DeclaredView) (scope : Scope) (columns : ColumnKinds) (u : UnknownColumn) → IsTableOf schema views scope columns u self.now
            → result ≡ is_sure schema views scope columns u place }
    {
        match self.kept(place) {
            None => false,
            Some(field) => field.code.is_certain,
        }
    }
}
