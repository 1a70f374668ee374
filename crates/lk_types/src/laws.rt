ghost use Rattle.std.specs.Prelude.{◌≡◌, ℕ, true, slice_get};
ghost use Rattle.lk_types.specs.Formula.{Formula, Formulas, In, Between, NullIf};
ghost use Rattle.lk_types.specs.Expressions.{value_of, mentions, has_number};
ghost use Rattle.lk_types.specs.Unfolded.{any_equal, beside_each, from_to, null_where_equal};
ghost use Rattle.lk_types.specs.Tables.{is_of_kind};
ghost use Rattle.lk_types.specs.Shapes.{shaped, shaped_kind};
ghost use Rattle.lk_types.specs.declared.explore.Shape.{Shape};
ghost use Rattle.lk_types.specs.declared.schema.Kind.{Kind};
ghost use Rattle.lk_types.specs.declared.rows.Joined.{Joined};
ghost use Rattle.lk_val.specs.declared.value.Value.{Value};

/// The value of an expression depends on the parts alone that it mentions. A law: it computes nothing.
pub fn expressions_read_what_they_mention()
    ensures mentioned { (e : Formula) (r s : Joined)
        → ((p : ℕ) → has_number p (mentions e) ≡ true → slice_get r.parts p ≡ slice_get s.parts p)
        → value_of e r ≡ value_of e s }
{}

/// IN, BETWEEN and NULLIF have on every row the value of the comparisons that they stand for. A law: it computes
/// nothing. (lookd)
pub fn comparisons_stand_for_lists_and_ranges()
    ensures in_list { (x : Formula) (all : Formulas) (row : Joined) → value_of (In x all) row ≡ value_of (any_equal (beside_each x all)) row }
    ensures between { (x low high : Formula) (row : Joined) → value_of (Between x low high) row ≡ value_of (from_to (x, low) (x, high)) row }
    ensures null_if { (a b : Formula) (row : Joined) → value_of (NullIf a b) row ≡ value_of (null_where_equal a (a, b)) row }
{}

/// What is grouped and filtered of a field has the kind that its shape makes of its expression's. A law: it computes
/// nothing. (lookd)
pub fn shaped_values_have_their_kinds()
    ensures kind { (s : Shape) (k : Kind) (v : Value) → is_of_kind k v ≡ true → is_of_kind (shaped_kind s k) (shaped s k v) ≡ true }
{}
