ghost use Rattle.std.specs.Prelude.{◌≡◌, ◌∷◌, ◌++◌, [], codes, false, map};
ghost use Rattle.lk_val.specs.declared.cell.Cell.TheVariants as cell;
ghost use Rattle.lk_val.specs.declared.value.Value.TheVariants as value;
ghost use Rattle.lk_types.specs.Samples.{units, word};
ghost use Rattle.lk_types.specs.declared.model.Pick.TheVariants.{Dim, Mea};
ghost use Rattle.lk_semantics.specs.Joins.{joined_rows};
ghost use Rattle.lk_semantics.specs.Rollups.{fits, partials_of, rollup_joins};
ghost use Rattle.lk_semantics.specs.Shop.{by_day, by_price, day, dim, empty_shop, fraction_cell, items, order_row, orders, orders_explore, query, query_of_ann, shop, sum, users, whole};
ghost use Rattle.lk_regroup_laws.specs.Further.{only_joins};
ghost use Rattle.lk_regroup_laws.specs.Regroup.{answer_regrouped};

/// What the shop's aggregate tables by day and by price answer: totals by month; an average of one caller's orders; an average
/// over days of which one has two orders, where the average of the days' averages would be 227/4; counts by price; the table's
/// own dimensions in another order; no rows; and a total from a table that does not fit it, which counts order 10 twice. A law:
/// it computes nothing.
pub fn the_shop_is_regrouped()
    ensures months { answer_regrouped orders_explore by_day (query (Dim 5 ∷ Mea 1 ∷ []) (0 ∷ [])) (partials_of orders_explore shop by_day)
        ≡ whole ((day 19723 ∷ sum 1000000 ∷ []) ∷ (day 19754 ∷ sum 805000 ∷ []) ∷ []) }
    ensures average { answer_regrouped orders_explore by_day (query_of_ann (Mea 2 ∷ []) (0 ∷ [])) (partials_of orders_explore shop by_day)
        ≡ whole ((fraction_cell 75 1 ∷ []) ∷ []) }
    ensures uneven { answer_regrouped orders_explore by_day (query (Mea 2 ∷ []) (0 ∷ []))
        (partials_of orders_explore (record { stored = users ∷ (orders ++ order_row 14 2 (codes "complete") 1709211600 100000 ∷ []) ∷ items ∷ []; derived = [] }) by_day)
        ≡ whole ((fraction_cell 381 8 ∷ []) ∷ []) }
    ensures prices { answer_regrouped orders_explore by_price (query (Dim 10 ∷ Mea 4 ∷ []) (0 ∷ 1 ∷ [])) (partials_of orders_explore shop by_price)
        ≡ whole ((dim value.Null ∷ cell.Count 0 ∷ []) ∷ (dim (units 40) ∷ cell.Count 1 ∷ [])
        ∷ (dim (units 50) ∷ cell.Count 1 ∷ []) ∷ (dim (units 60) ∷ cell.Count 1 ∷ []) ∷ []) }
    ensures own_dimensions { answer_regrouped orders_explore by_price (query (Dim 10 ∷ Dim 7 ∷ Mea 1 ∷ []) (0 ∷ 1 ∷ [])) (partials_of orders_explore shop by_price)
        ≡ whole ((dim value.Null ∷ dim (word (codes "US")) ∷ sum 305000 ∷ [])
        ∷ (dim (units 40) ∷ dim (word (codes "EU")) ∷ sum 1000000 ∷ [])
        ∷ (dim (units 50) ∷ dim (word (codes "EU")) ∷ sum 500000 ∷ [])
        ∷ (dim (units 60) ∷ dim (word (codes "EU")) ∷ sum 1000000 ∷ []) ∷ []) }
    ensures no_rows { answer_regrouped orders_explore by_day (query (Mea 0 ∷ []) (0 ∷ [])) (partials_of orders_explore empty_shop by_day)
        ≡ whole ((cell.Count 0 ∷ []) ∷ []) }
    ensures does_not_fit { fits orders_explore by_price (query (Mea 1 ∷ []) (0 ∷ 1 ∷ [])) ≡ false }
    ensures twice { answer_regrouped orders_explore by_price (query (Mea 1 ∷ []) (0 ∷ 1 ∷ [])) (partials_of orders_explore shop by_price)
        ≡ whole ((sum 2805000 ∷ []) ∷ []) }
{}

/// Without the users that only its join brings, the rows of the table by day are the orders. A law: it computes nothing.
pub fn the_users_are_left_out()
    ensures { map (only_joins orders_explore []) (joined_rows orders_explore shop (rollup_joins orders_explore by_day))
        ≡ joined_rows orders_explore shop [] }
{}
