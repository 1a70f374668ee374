ghost use Rattle.std.specs.Prelude.{◌≡◌, option_map};
ghost use Rattle.lk_formulas.specs.Told.{kept_at};

use crate::code::resolved_code;
use crate::columns::{ColumnKinds, UnknownColumn};
use crate::filling::resolved_fields;
use crate::referent::Names;
use crate::resolved::{ResolvedCode, ResolvedField};
use crate::stand_in::field_numbered;
use lk_fields::{FieldSet, Place, Scope, Writer, all_places, number_of};
use lk_objects::{Code, DeclaredView};
use lk_types::Schema;
use lk_val::{Items, NoMemory};
use std::alloc::Global;

/// The formulas of all declared fields of a scope.
#[derive(Drop)]
pub struct FieldTable {
    set: FieldSet,
    places: Items<Place>,
    fields: Items<Option<ResolvedField>>,
}

impl FieldTable {
    ghost use Rattle.std.specs.Prelude.{◌≡◌, IfOk, List, map, option_map};
    ghost use Rattle.lk_types.specs.declared.schema.Schema.{Schema};
    ghost use Rattle.lk_objects.specs.declared.view.DeclaredView.{DeclaredView};
    ghost use Rattle.lk_fields.specs.declared.scope.Scope.{Scope};
    ghost use Rattle.lk_fields.specs.Existing.{exists, is_on_cycle, reaches_cycle};
    ghost use Rattle.lk_formulas.specs.declared.columns.ColumnKinds.{ColumnKinds};
    ghost use Rattle.lk_formulas.specs.declared.columns.UnknownColumn.{UnknownColumn};
    ghost use Rattle.lk_formulas.specs.NumberSizes.{number_nodes, told};
    ghost use Rattle.lk_formulas.specs.Resolved.{IsTableOf, code_told, field_told, resolved_in};

    /// The fields of a scope, each resolved once, in time that is proportional to the formulas that are kept; names aside,
    /// which are looked up one after the other. (lookd)
    pub fn of(
        alloc: Global,
        schema: &Schema,
        views: &[DeclaredView],
        scope: &Scope,
        columns: &ColumnKinds,
        unknown: UnknownColumn,
    ) -> Result<FieldTable, NoMemory>
        ensures { IfOk result (IsTableOf schema.now views.now scope.now columns.now unknown) }
    {
        let set = FieldSet::of(alloc, views, scope)?;
        let places = all_places(alloc, views, scope)?;
        let names = Names {
            schema,
            views,
            scope,
            places: places.as_slice(),
        };
        let fields = resolved_fields(alloc, &names, columns, unknown)?;
        Ok(FieldTable {
            set,
            places,
            fields,
        })
    }

    /// The formula of a field's `sql`, of a dimension group without a timeframe; none of a field that reaches a cycle, and
    /// where there is no such place. (Looker, LookML reference: substitution operators)
    pub fn field(&self, place: Place) -> Option<&ResolvedCode>
        ensures { (schema : Schema) (views : List DeclaredView) (scope : Scope) (columns : ColumnKinds) (u : UnknownColumn) → IsTableOf schema views scope columns u self.now
            → option_map (λ code. code.now) result ≡ code_told schema views scope columns u place }
    {
        match self.kept(place) {
            None => None,
            Some(field) => Some(&field.code),
        }
    }

    /// The formula of a code that stands in the text of a field or in the explore's own; null where it is no expression. The
    /// table is to be that of the same scope.
    pub fn code(
        &self,
        alloc: Global,
        schema: &Schema,
        views: &[DeclaredView],
        scope: &Scope,
        columns: &ColumnKinds,
        unknown: UnknownColumn,
        writer: Writer,
        code: &Code,
    ) -> Result<ResolvedCode, NoMemory>
        ensures { IsTableOf schema.now views.now scope.now columns.now unknown self.now
            → IfOk result (λ made. made ≡ resolved_in schema.now views.now scope.now columns.now unknown writer code.now) }
    {
        let names = Names {
            schema,
            views,
            scope,
            places: self.places.as_slice(),
        };
        let fields = self.fields.as_slice();
        resolved_code(alloc, &names, columns, unknown, fields, writer, code)
    }

    /// How many nodes the expression of a measure of type number has, with those of other such measures put in; one of any
    /// other field, and of one that reaches a cycle. The greatest number stands for so many and more. (lookd)
    pub fn number_size(&self, place: Place) -> usize
        ensures { (schema : Schema) (views : List DeclaredView) (scope : Scope) (columns : ColumnKinds) (u : UnknownColumn) → IsTableOf schema views scope columns u self.now
            → result ≡ told (number_nodes views scope place) }
    {
        match self.kept(place) {
            None => 1,
            Some(field) => field.number_size,
        }
    }

    /// Whether a place is that of a declared field which is a field of the scope: all that its text names is there, and so
    /// on. (Looker, LookML reference: explore, fields)
    pub fn exists(&self, place: Place) -> bool
        ensures { (schema : Schema) (views : List DeclaredView) (scope : Scope) (columns : ColumnKinds) (u : UnknownColumn) → IsTableOf schema views scope columns u self.now
            → result ≡ exists views scope place }
    {
        self.set.exists(place)
    }

    /// Whether a place is that of a declared field which stands on a cycle of references or reaches one.
    pub fn reaches_cycle(&self, place: Place) -> bool
        ensures { (schema : Schema) (views : List DeclaredView) (scope : Scope) (columns : ColumnKinds) (u : UnknownColumn) → IsTableOf schema views scope columns u self.now
            → result ≡ reaches_cycle views scope place }
    {
        self.set.reaches_cycle(place)
    }

    /// Whether a place is that of a declared field which refers to itself through any number of references.
    pub fn is_on_cycle(&self, alloc: Global, place: Place) -> Result<bool, NoMemory>
        ensures { (schema : Schema) (views : List DeclaredView) (scope : Scope) (columns : ColumnKinds) (u : UnknownColumn) → IsTableOf schema views scope columns u self.now
            → IfOk result (λ is. is ≡ is_on_cycle views scope place) }
    {
        self.set.is_on_cycle(alloc, place)
    }

    // What is kept of the field at a place.
    pub(crate) fn kept(&self, place: Place) -> Option<&ResolvedField>
        ensures { (schema : Schema) (views : List DeclaredView) (scope : Scope) (columns : ColumnKinds) (u : UnknownColumn) → IsTableOf schema views scope columns u self.now
            → option_map (λ field. field.now) result ≡ field_told schema views scope columns u place }
    {
        kept_at(self.places.as_slice(), self.fields.as_slice(), place)
    }
}

fn kept_at<'a>(
    places: &[Place],
    fields: &'a [Option<ResolvedField>],
    place: Place,
) -> Option<&'a ResolvedField>
    ensures { option_map (λ field. field.now) result ≡ kept_at places.now fields.now place }
{
    match number_of(places, place) {
        None => None,
        Some(number) => field_numbered(fields, number),
    }
}
