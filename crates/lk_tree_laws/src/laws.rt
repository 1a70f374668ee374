ghost use Rattle.std.specs.Prelude.{◌≡◌, ℕ, List, false, slice_get, true};
ghost use Rattle.std.specs.List.{Contains};
ghost use Rattle.lk_val.specs.Values.{is_null};
ghost use Rattle.lk_types.specs.Expressions.{has_number};
ghost use Rattle.lk_types.specs.Tables.{are_valid_tables};
ghost use Rattle.lk_types.specs.declared.explore.Explore.{Explore};
ghost use Rattle.lk_types.specs.declared.model.Model.{Model};
ghost use Rattle.lk_types.specs.declared.rows.Joined.{Joined};
ghost use Rattle.lk_types.specs.declared.rows.Sources.{Sources};
ghost use Rattle.lk_semantics.specs.Answers.{has_part};
ghost use Rattle.lk_semantics.specs.Joins.{joined_rows};
ghost use Rattle.lk_semantics.specs.Resolved.{has_exact_keys};
ghost use Rattle.lk_semantics.specs.Rollups.{determined_views, present_views};
ghost use Rattle.lk_tree_laws.specs.ViewKeys.{view_key};

/// Over the valid tables of a model whose enforced keys an explore has: two joined rows with one key of a view, enforced
/// and not null, have the same row of each view that the key determines, or both have none; and a row with such a key has
/// a row of each view that is present with it. A law: it computes nothing. (lookd)
pub fn rows_with_one_key_agree()
    ensures determined { (m : Model) (x : Explore) (s : Sources) (joins : List ℕ) (v w : ℕ) (one other : Joined)
        → has_exact_keys m x ≡ true → are_valid_tables m.schema.tables s.stored ≡ true
        → Contains (joined_rows x s joins) one → Contains (joined_rows x s joins) other
        → is_null (view_key x v one) ≡ false → view_key x v other ≡ view_key x v one
        → has_number w (determined_views x joins v) ≡ true → slice_get one.parts w ≡ slice_get other.parts w }
    ensures present { (m : Model) (x : Explore) (s : Sources) (joins : List ℕ) (v w : ℕ) (one : Joined)
        → has_exact_keys m x ≡ true → are_valid_tables m.schema.tables s.stored ≡ true
        → Contains (joined_rows x s joins) one → is_null (view_key x v one) ≡ false
        → has_number w (present_views x joins v) ≡ true → has_part w one ≡ true }
{}
