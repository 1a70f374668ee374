ghost use Rattle.std.specs.Prelude.{◌≡◌, ℤ, Ok};
ghost use Rattle.lk_types.specs.declared.bound.Bound.{Bound};
ghost use Rattle.lk_types.specs.declared.explore.Explore.{Explore};
ghost use Rattle.lk_types.specs.declared.model.Model.{Model};
ghost use Rattle.lk_types.specs.declared.rows.Sources.{Sources};
ghost use Rattle.lk_types.specs.declared.rows.Tables.{Tables};
ghost use Rattle.lk_semantics.specs.Derived.{explore_at, sources_of};
ghost use Rattle.lk_semantics.specs.Resolved.{IsResolved};
ghost use Rattle.lk_semantics.specs.Rows.{visible_rows};
ghost use Rattle.lk_derived.specs.ReadRows.{HasRowsFor, whole};
ghost use Rattle.lk_filter.specs.PlacedModel.{placed_model};
ghost use Rattle.lk_ask.specs.Asks.{told_over};
ghost use Rattle.lk_ask.specs.declared.told.Told.{Told};

/// Where a query is told something, it is told which query that was. A law: it computes nothing.
pub fn told_queries_are_those_asked()
    ensures { (x : Explore) (s : Sources) (b : Bound) (told : Told) → Ok told ≡ told_over x s b → told.bound ≡ b }
{}

/// What a query is told at a moment depends on the tables only through the rows that its caller sees: over tables in
/// which these are the same it is told the same, its refusals among it. A law: it computes nothing.
pub fn visible_rows_decide_what_is_told()
    ensures { (m : Model) (now : ℤ) (s t : Sources) (b : Bound)
        → visible_rows (explore_at (placed_model now m) b.explore) s b ≡ visible_rows (explore_at (placed_model now m) b.explore) t b
        → told_over (explore_at (placed_model now m) b.explore) s b ≡ told_over (explore_at (placed_model now m) b.explore) t b }
{}

/// The rows that a query sees are the same at each moment, and so are those of a resolved model's derived tables: what
/// they are made of has no relative dates. A law: it computes nothing.
pub fn rows_depend_on_no_moment()
    ensures visible { (m : Model) (now : ℤ) (s : Sources) (b : Bound)
        → visible_rows (explore_at (placed_model now m) b.explore) s b ≡ visible_rows (explore_at m b.explore) s b }
    ensures derived { (m : Model) (now : ℤ) (t : Tables) → IsResolved m → sources_of (placed_model now m) t ≡ sources_of m t }
{}

/// A query of a resolved model is told the same over tables that have the rows which it reads as over all, at each moment. A
/// law: it computes nothing.
pub fn rows_read_decide_what_is_told()
    ensures { (m : Model) (now : ℤ) (s : Sources) (b : Bound) → HasRowsFor m s b
        → told_over (explore_at (placed_model now m) b.explore) s b ≡ told_over (explore_at (placed_model now m) b.explore) (whole m s) b }
{}
