ghost use Rattle.std.specs.Prelude.{◌≡◌, ◌&&◌, ℕ, All, true};
ghost use Rattle.lk_types.specs.Dates.{are_literals_dated, is_dated, is_row_dated};
ghost use Rattle.lk_types.specs.Expressions.{is_true, value_of};
ghost use Rattle.lk_types.specs.Filters.{meets, passes};
ghost use Rattle.lk_types.specs.Formula.{Formula};
ghost use Rattle.lk_types.specs.Kinds.{HasKinds};
ghost use Rattle.lk_types.specs.Tables.{is_of_kind};
ghost use Rattle.lk_types.specs.declared.bound.Bound.{Bound};
ghost use Rattle.lk_types.specs.declared.explore.Explore.{Explore};
ghost use Rattle.lk_types.specs.declared.filter.Filter.{Filter};
ghost use Rattle.lk_types.specs.declared.filter.Test.{Test};
ghost use Rattle.lk_types.specs.declared.model.Model.{Model};
ghost use Rattle.lk_types.specs.declared.rows.Joined.{Joined};
ghost use Rattle.lk_types.specs.declared.rows.Sources.{Sources};
ghost use Rattle.lk_types.specs.declared.schema.Kind.{Kind};
ghost use Rattle.lk_semantics.specs.Derived.{explore_at};
ghost use Rattle.lk_semantics.specs.Joins.{is_met, joined_rows};
ghost use Rattle.lk_semantics.specs.Reading.{leaves_of};
ghost use Rattle.lk_semantics.specs.Resolved.{IsInModel, IsResolved, IsResolvedExplore};
ghost use Rattle.lk_semantics.specs.Rows.{dim_value, field_at, passes_all};
ghost use Rattle.lk_derived.specs.ReadRows.{HasRowsFor};
ghost use Rattle.lk_plan.specs.Conditions.{passing_condition, visible_condition};
ghost use Rattle.lk_plan.specs.FieldFormulas.{field_formula};
ghost use Rattle.lk_plan.specs.FilterConditions.{filter_condition};
ghost use Rattle.lk_plan.specs.TestConditions.{test_condition};

/// On null and on a value of the field's kind, whose day is of the years 1 to 9999, a test's condition is true exactly
/// where the value meets the test. A law: it computes nothing. (Looker, filter expressions)
pub fn tests_are_conditions()
    ensures { (k : Kind) (x : Formula) (row : Joined) → is_of_kind k (value_of x row) ≡ true → is_dated (value_of x row) ≡ true
        → (t : Test) → is_true (value_of (test_condition k x t) row) ≡ meets (value_of x row) t }
{}

/// On such a value, a filter's condition is true exactly where the filter passes the value, and a filter that has no
/// condition passes all. A law: it computes nothing. (Looker, filter expressions)
pub fn filters_are_conditions()
    ensures { (k : Kind) (x : Formula) (row : Joined) → is_of_kind k (value_of x row) ≡ true → is_dated (value_of x row) ≡ true
        → (f : Filter) → is_met (filter_condition k x f) row ≡ passes f (value_of x row) }
{}

/// On a row whose cells are null or of their columns' kinds, what is filtered of a resolved explore's field is the value
/// of its expression. A law: it computes nothing.
pub fn fields_are_expressions()
    ensures { (m : Model) (x : Explore) (row : Joined) → IsResolvedExplore m x → HasKinds (leaves_of m x) row
        → (f : ℕ) → value_of (field_formula (field_at x f)) row ≡ dim_value x row f }
{}

/// The literals of a plan's conditions are of the years 1 to 9999. A law: it computes nothing.
pub fn conditions_are_dated()
    ensures visible { (m : Model) (x : Explore) (b : Bound) → IsResolvedExplore m x → are_literals_dated (visible_condition x b) ≡ true }
    ensures passing { (m : Model) (x : Explore) (b : Bound) → IsResolvedExplore m x → are_literals_dated (passing_condition x b) ≡ true }
{}

/// On a row whose cells are null or of their columns' kinds, and whose days are of the years 1 to 9999, the one
/// condition of a plan is true exactly where the row passes every access filter, and the other exactly where
/// `sql_always_where` is true and the row passes every filter on a dimension. A law: it computes nothing.
pub fn conditions_are_filters()
    ensures visible { (m : Model) (x : Explore) (b : Bound) (row : Joined) → IsResolvedExplore m x → HasKinds (leaves_of m x) row → is_row_dated row ≡ true
        → is_true (value_of (visible_condition x b) row) ≡ passes_all x b.access row }
    ensures passing { (m : Model) (x : Explore) (b : Bound) (row : Joined) → IsResolvedExplore m x → HasKinds (leaves_of m x) row → is_row_dated row ≡ true
        → is_true (value_of (passing_condition x b) row) ≡ (is_met x.always_where row && passes_all x b.rows row) }
{}

/// Over tables that have the rows which a query of a resolved model reads, that is so of every row that the query joins: a
/// plan's conditions say which rows its caller sees, and which of them it counts. A law: it computes nothing.
pub fn joined_rows_meet_conditions()
    ensures visible { (m : Model) (s : Sources) (b : Bound) → IsResolved m → IsInModel m b → HasRowsFor m s b
        → All (λ row. is_true (value_of (visible_condition (explore_at m b.explore) b) row) ≡ passes_all (explore_at m b.explore) b.access row)
        (joined_rows (explore_at m b.explore) s b.joins) }
    ensures passing { (m : Model) (s : Sources) (b : Bound) → IsResolved m → IsInModel m b → HasRowsFor m s b
        → All (λ row. is_true (value_of (passing_condition (explore_at m b.explore) b) row)
        ≡ (is_met (explore_at m b.explore).always_where row && passes_all (explore_at m b.explore) b.rows row))
        (joined_rows (explore_at m b.explore) s b.joins) }
{}
