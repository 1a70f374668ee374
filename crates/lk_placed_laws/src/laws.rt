// Laws of a model at a moment and for each caller. Each is a function that computes nothing: its clauses are the law.

ghost use Rattle.std.specs.Prelude.{◌≡◌, ℕ, ℤ, List, true};
ghost use Rattle.lk_types.specs.declared.bound.Bound.{Bound};
ghost use Rattle.lk_types.specs.declared.filter.Filter.{Filter};
ghost use Rattle.lk_types.specs.declared.model.Model.{Model};
ghost use Rattle.lk_types.specs.declared.rows.Sources.{Sources};
ghost use Rattle.lk_semantics.specs.Answers.{answer_of, filtered};
ghost use Rattle.lk_semantics.specs.Derived.{explore_at};
ghost use Rattle.lk_semantics.specs.Resolved.{IsResolved};
ghost use Rattle.lk_semantics.specs.Rollups.{fits, partials_of, rollup_at, route_of};
ghost use Rattle.lk_filter.specs.PlacedModel.{placed_model};

/// A query over a resolved model is routed alike at each moment. A law: it computes nothing. (lookd)
pub fn routes_depend_on_no_moment()
    ensures { (m : Model) (now : ℤ) (builds : List ℕ) (number : ℕ) (b : Bound) → IsResolved m
        → route_of (placed_model now m) builds number b ≡ route_of m builds number b }
{}

/// An aggregate table of a resolved model keeps the same at each moment: what it counts has no relative date. A law: it
/// computes nothing. (lookd)
pub fn rollups_depend_on_no_moment()
    ensures { (m : Model) (now : ℤ) (s : Sources) (e n : ℕ) → IsResolved m
        → partials_of (explore_at (placed_model now m) e) s (rollup_at (explore_at (placed_model now m) e) n)
        ≡ partials_of (explore_at m e) s (rollup_at (explore_at m e) n) }
{}

/// A query of a resolved model that an aggregate table fits is answered alike at each moment: the measures that the table has
/// are filtered by no relative date. A law: it computes nothing. (lookd)
pub fn fitting_queries_depend_on_no_moment()
    ensures { (m : Model) (now : ℤ) (s : Sources) (b : Bound) (n : ℕ) → IsResolved m
        → fits (explore_at m b.explore) (rollup_at (explore_at m b.explore) n) b ≡ true
        → answer_of (explore_at (placed_model now m) b.explore) s b ≡ answer_of (explore_at m b.explore) s b }
{}

/// Callers whose queries differ in the tests of their access filters alone are routed alike. A law: it computes nothing.
/// (lookd)
pub fn callers_are_routed_alike()
    ensures { (m : Model) (builds : List ℕ) (number : ℕ) (b : Bound) (access : List (ℕ × Filter))
        → filtered access ≡ filtered b.access
        → route_of m builds number (record b { access = access }) ≡ route_of m builds number b }
{}
