ghost use Rattle.std.specs.Prelude.{◌≡◌, [], false, true};
ghost use Rattle.lk_types.specs.Tables.{is_valid_table};
ghost use Rattle.lk_semantics.specs.Answers.{measure_at};
ghost use Rattle.lk_semantics.specs.Corners.{buyers_and_sellers, count_with_value};
ghost use Rattle.lk_semantics.specs.Resolved.{HasGroupsOfOnePart, IsResolvedDerived, IsResolvedExplore};
ghost use Rattle.lk_semantics.specs.Rollups.{may_be_stored, regroups};
ghost use Rattle.lk_semantics.specs.Shop.{by_day, shop_model};
ghost use Rattle.lk_tree_laws.specs.NotResolved.{crowded, of_today, one_text, with_empty_text};

/// What is written at a count as its value, here a price of items, has no effect on whether the count of orders may be
/// stored, or put together from finer groups; and the timeframes of two views are not one group. A law: it computes nothing.
pub fn stored_corners_are_defined()
    ensures stored { may_be_stored count_with_value [] (measure_at count_with_value 5) ≡ true }
    ensures finer { regroups count_with_value by_day (measure_at count_with_value 5) ≡ true }
    ensures groups { HasGroupsOfOnePart buyers_and_sellers → ⊥ }
{}

/// An empty text stands in no table; an explore of 32 joins, and a derived table with a relative date in a filter, in no
/// resolved model. A law: it computes nothing.
pub fn unresolved_corners_are_defined()
    ensures text { is_valid_table one_text with_empty_text ≡ false }
    ensures joins { IsResolvedExplore shop_model crowded → ⊥ }
    ensures moment { IsResolvedDerived shop_model of_today → ⊥ }
{}
