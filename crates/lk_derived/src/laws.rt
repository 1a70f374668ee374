// Laws of derived tables. Each is a function that computes nothing: its clauses are the law.

ghost use Rattle.std.specs.Prelude.{◌≡◌, ℕ, true, [], slice_index_or};
ghost use Rattle.lk_types.specs.Tables.{are_valid_tables};
ghost use Rattle.lk_semantics.specs.Rollups.{derived_at};
ghost use Rattle.lk_semantics.specs.Reading.{derived_kinds};
ghost use Rattle.lk_derived.specs.FittingRows.{fits_rows};
ghost use Rattle.lk_derived.specs.ReadRows.{HasRowsFor, whole};
ghost use Rattle.std.specs.List.{list_all};
ghost use Rattle.lk_semantics.specs.DatedRows.{are_rows_dated, are_sources_dated};
ghost use Rattle.lk_semantics.specs.Derived.{explore_at, sources_of};
ghost use Rattle.lk_semantics.specs.Joins.{joined_rows};
ghost use Rattle.lk_semantics.specs.Resolved.{IsResolved};
ghost use Rattle.lk_derived.specs.DatedExplores.{is_explore_dated};
ghost use Rattle.lk_types.specs.declared.bound.Bound.{Bound};
ghost use Rattle.lk_types.specs.declared.model.Model.{Model};
ghost use Rattle.lk_types.specs.declared.rows.Sources.{Sources};
ghost use Rattle.lk_types.specs.declared.rows.Tables.{Tables};

/// The literals of a resolved model's dimensions and measures are of the years 1 to 9999. A law: it computes nothing.
pub fn resolved_explores_are_dated()
    ensures { (m : Model) → IsResolved m → list_all is_explore_dated m.explores ≡ true }
{}

/// Where the days and moments of the stored tables are of the years 1 to 9999, those of the derived tables are too,
/// over such explores. A law: it computes nothing.
pub fn derived_rows_are_dated()
    ensures { (m : Model) (t : Tables) → list_all is_explore_dated m.explores ≡ true → list_all are_rows_dated t.tables ≡ true
        → are_sources_dated (sources_of m t) ≡ true }
{}

/// Over valid tables, the rows of each derived table of a resolved model are null or of the kinds of what its columns
/// take. A law: it computes nothing.
pub fn derived_rows_have_their_kinds()
    ensures { (m : Model) (t : Tables) → IsResolved m → are_valid_tables m.schema.tables t.tables ≡ true → (d : ℕ)
        → fits_rows (derived_kinds m (derived_at m d)) (slice_index_or (sources_of m t).derived d []) ≡ true }
{}

/// A query joins the same rows of tables that have the rows which it reads as of all tables together. A law: it computes
/// nothing.
pub fn rows_read_decide()
    ensures { (m : Model) (s : Sources) (b : Bound) → HasRowsFor m s b
        → joined_rows (explore_at m b.explore) s b.joins ≡ joined_rows (explore_at m b.explore) (whole m s) b.joins }
{}

/// The days and moments of tables that have the rows which a query of a resolved model reads are of the years 1 to 9999. A
/// law: it computes nothing.
pub fn rows_read_are_dated()
    ensures { (m : Model) (s : Sources) (b : Bound) → IsResolved m → HasRowsFor m s b → are_sources_dated s ≡ true }
{}

/// Valid tables with the rows of all derived ones have those that a query reads. A law: it computes nothing.
pub fn whole_tables_have_rows()
    ensures { (m : Model) (t : Tables) (b : Bound) → are_valid_tables m.schema.tables t.tables ≡ true → HasRowsFor m (sources_of m t) b }
{}
