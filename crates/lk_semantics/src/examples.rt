ghost use Rattle.std.specs.Prelude.{◌≡◌, ◌∷◌, ◌++◌, [], true, false, pos, map, not, length, codes, Some, None, option_and_then};
ghost use Rattle.lk_val.specs.declared.cell.Cell.TheVariants as cell;
ghost use Rattle.lk_val.specs.declared.value.Value.TheVariants as value;
ghost use Rattle.lk_val.specs.Fractions.{frac_add, frac_div, frac_of_sum, frac_of_count};
ghost use Rattle.lk_types.specs.Expressions.{value_of};
ghost use Rattle.lk_semantics.specs.Joins.{joined_rows, is_fanned, numbers_below};
ghost use Rattle.lk_semantics.specs.Rows.{passing_rows};
ghost use Rattle.lk_semantics.specs.Measures.{pairs_of, total, groups_of};
ghost use Rattle.lk_semantics.specs.Answers.{answer_of, given_rows, measure_at};
ghost use Rattle.lk_semantics.specs.Derived.{explore_at, derived_query, joins_for, with_always};
ghost use Rattle.lk_semantics.specs.Reading.{reached_tables, explore_datagroups, reads_itself, leaves_of};
ghost use Rattle.lk_semantics.specs.Resolved.{IsResolved, IsInModel, has_whole_forms, is_interval, is_typed_explore, is_numbered_rollup, has_grounded_measures, has_typed_filters, is_fixed_rollup, has_exact_keys, has_part_for_each_join, are_one};
ghost use Rattle.lk_semantics.specs.Corners.{count_with_value, cross_with_condition, with_default, buyers_and_sellers, by_buyers_day, chained, circular, derived_from, with_field, with_measure, open_time, number_over_text, number_over_itself, with_default_of, without_key, without_items, by_today, beside_rollup};
ghost use Rattle.lk_semantics.specs.Rollups.{determined_views, present_views, has_field, reached_datagroups, fits, route_of, partials_of, may_be_stored, may_be_rolled_up, merged, cell_of_partial};
ghost use Rattle.lk_types.specs.Tables.{is_valid_table};
ghost use Rattle.lk_types.specs.Kinds.{kind_at};
ghost use Rattle.lk_semantics.specs.Shop.{shop, other_shop, empty_shop, greatest_shop, shop_without_user, shop_model, items, items_def, orders_explore, orders_with, near_orders, not_far, order_without_user, per_order, greatest_total, by_day, by_price, query, query_of_ann, open_query, two_orders, of_status, at_least_100, whole, sum, dim, day, fraction_cell, kept, of_values};
ghost use Rattle.lk_types.specs.Samples.{units, parts, word, only, is};
ghost use Rattle.lk_semantics.specs.SmallTables.{one, both, two_tables, joined_as, regions_explore, regions_and_users, regions_shop};
ghost use Rattle.lk_semantics.specs.WrongDefinitions.{given_entries, total_of_rows, is_not_false, groups_without_null, answer_over_all, conflicts_of_all};
ghost use Rattle.lk_types.specs.declared.schema.Frame.TheVariants as frame;
ghost use Rattle.lk_types.specs.declared.expr.Arithmetic.TheVariants as arithmetic;
ghost use Rattle.lk_types.specs.declared.expr.Piece.TheVariants as piece;
ghost use Rattle.lk_types.specs.declared.filter.Edge.TheVariants as edge;
ghost use Rattle.lk_types.specs.declared.filter.Test.TheVariants as test;
ghost use Rattle.lk_types.specs.declared.filter.Period.TheVariants as period;
ghost use Rattle.lk_types.specs.declared.explore.JoinKind.TheVariants.{Left, Full, Inner, Cross};
ghost use Rattle.lk_types.specs.declared.schema.Kind.TheVariants as kind;
ghost use Rattle.lk_types.specs.Formula.{Column, Literal, In, Case, Coalesce, no_more, more, otherwise};
ghost use Rattle.lk_types.specs.declared.schema.Frame.TheVariants as frame;
ghost use Rattle.lk_types.specs.declared.explore.Shape.TheVariants as shape;
ghost use Rattle.lk_types.specs.declared.filter.Test.TheVariants as test;
ghost use Rattle.std.specs.List.{list_all};
ghost use Rattle.lk_types.specs.declared.explore.Op.TheVariants as op;
ghost use Rattle.lk_types.specs.declared.model.Pick.TheVariants.{Dim, Mea};
ghost use Rattle.lk_types.specs.declared.answer.Answer.TheVariants.{Duplicate, Table};
ghost use Rattle.lk_types.specs.declared.answer.RouteFrom.TheVariants as from;

/// What the definition of an answer gives on the shop: totals and counts over fanned views, an exact average, a
/// group of null, no rows, months, weeks, one caller's rows, and sums past the range of a value. A law: it computes nothing.
pub fn shop_queries_are_answered()
    ensures totals_once { answer_of orders_explore shop (query (Mea 1 ∷ Mea 4 ∷ []) (0 ∷ 1 ∷ []))
        ≡ whole ((sum 1805000 ∷ cell.Count 3 ∷ []) ∷ []) }
    ensures exact_average { answer_of orders_explore shop (query (Mea 2 ∷ []) (0 ∷ [])) ≡ whole ((fraction_cell 361 6 ∷ []) ∷ []) }
    ensures by_price { answer_of orders_explore shop (query (Dim 10 ∷ Mea 1 ∷ []) (0 ∷ 1 ∷ []))
        ≡ whole ((dim value.Null ∷ sum 305000 ∷ []) ∷ (dim (units 40) ∷ sum 1000000 ∷ [])
        ∷ (dim (units 50) ∷ sum 500000 ∷ []) ∷ (dim (units 60) ∷ sum 1000000 ∷ []) ∷ []) }
    ensures count_of_nothing { answer_of orders_explore empty_shop (query (Mea 0 ∷ []) (0 ∷ []))
        ≡ whole ((cell.Count 0 ∷ []) ∷ []) }
    ensures groups_of_nothing { answer_of orders_explore empty_shop (query (Dim 2 ∷ Mea 0 ∷ []) (0 ∷ [])) ≡ whole [] }
    ensures by_month { answer_of orders_explore shop (query (Dim 5 ∷ Mea 0 ∷ []) (0 ∷ []))
        ≡ whole ((day 19723 ∷ cell.Count 1 ∷ []) ∷ (day 19754 ∷ cell.Count 2 ∷ []) ∷ []) }
    ensures by_week { answer_of orders_explore shop (query (Dim 4 ∷ Mea 0 ∷ []) (0 ∷ []))
        ≡ whole ((day 19751 ∷ cell.Count 2 ∷ []) ∷ (day 19779 ∷ cell.Count 1 ∷ []) ∷ []) }
    ensures for_one_caller { answer_of orders_explore shop (query_of_ann (Mea 1 ∷ []) (0 ∷ [])) ≡ whole ((sum 1500000 ∷ []) ∷ []) }
    ensures past_a_value { answer_of orders_explore greatest_shop (query (Mea 1 ∷ []) (0 ∷ []))
        ≡ whole ((sum 18446744073709551614 ∷ []) ∷ []) }
{}

/// What the definition gives for a calculated measure, a greatest value, a filter on a measure, a sort that cuts,
/// a default filter that a query replaces, and a hidden condition. A law: it computes nothing.
pub fn shop_filters_and_sorts_apply()
    ensures per_order { answer_of (orders_with Left (per_order ∷ [])) shop (query (Mea 5 ∷ []) (0 ∷ []))
        ≡ whole ((fraction_cell 361 6 ∷ []) ∷ []) }
    ensures per_no_order { answer_of (orders_with Left (per_order ∷ [])) empty_shop (query (Mea 5 ∷ []) (0 ∷ []))
        ≡ whole ((dim value.Null ∷ []) ∷ []) }
    ensures greatest { answer_of (orders_with Left (greatest_total ∷ [])) shop (query (Mea 5 ∷ []) (0 ∷ []))
        ≡ whole ((dim (units 100) ∷ []) ∷ []) }
    ensures large_totals { answer_of orders_explore shop (record (query (Dim 2 ∷ Mea 1 ∷ []) (0 ∷ [])) { having = at_least_100 })
        ≡ whole ((dim (word (codes "complete")) ∷ sum 1305000 ∷ []) ∷ []) }
    ensures first_by_total { answer_of orders_explore shop (record (query (Dim 2 ∷ Mea 1 ∷ []) (0 ∷ [])) { sorts = record { place = 1; down = false } ∷ []; limit = 1 })
        ≡ Table ((dim (word (codes "open")) ∷ sum 500000 ∷ []) ∷ []) false }
    ensures complete_orders { answer_of orders_explore shop (record (query (Mea 0 ∷ []) (0 ∷ [])) { rows = of_status (codes "complete") })
        ≡ whole ((cell.Count 2 ∷ []) ∷ []) }
    ensures unknown_does_not_pass { answer_of near_orders shop_without_user (query (Mea 0 ∷ []) (0 ∷ []))
        ≡ whole ((cell.Count 3 ∷ []) ∷ []) }
{}

/// A key with two values in a group refuses the query, and only where the caller sees both. A law: it computes nothing.
pub fn conflicts_are_of_visible_rows()
    ensures two_prices { answer_of orders_explore shop (query (Mea 3 ∷ []) (0 ∷ 1 ∷ [])) ≡ Duplicate 3 (units 10) }
    ensures filtered_prices { answer_of orders_explore shop (record (query (Mea 3 ∷ []) (0 ∷ 1 ∷ [])) { rows = two_orders })
        ≡ whole ((sum 500000 ∷ []) ∷ []) }
    ensures seen { answer_of orders_explore other_shop (query_of_ann (Mea 3 ∷ []) (0 ∷ 1 ∷ [])) ≡ Duplicate 3 (units 10) }
    ensures hidden { answer_of orders_explore other_shop (record (query_of_ann (Mea 3 ∷ []) (0 ∷ 1 ∷ [])) { rows = two_orders })
        ≡ whole ((sum 500000 ∷ []) ∷ []) }
{}

/// The four kinds of join of two small tables, the joins that queries need, and the views that they fan out. A law: it computes nothing.
pub fn tables_are_joined()
    ensures inner { joined_rows (joined_as Inner) two_tables (0 ∷ []) ≡ both (Some (one 2)) (Some (one 2)) ∷ [] }
    ensures left { joined_rows (joined_as Left) two_tables (0 ∷ [])
        ≡ both (Some (one 1)) None ∷ both (Some (one 2)) (Some (one 2)) ∷ [] }
    ensures full { joined_rows (joined_as Full) two_tables (0 ∷ [])
        ≡ both (Some (one 1)) None ∷ both (Some (one 2)) (Some (one 2)) ∷ both None (Some (one 3)) ∷ [] }
    ensures cross { joined_rows (joined_as Cross) two_tables (0 ∷ [])
        ≡ both (Some (one 1)) (Some (one 2)) ∷ both (Some (one 1)) (Some (one 3))
        ∷ both (Some (one 2)) (Some (one 2)) ∷ both (Some (one 2)) (Some (one 3)) ∷ [] }
    ensures needed_of_totals { joins_for orders_explore (7 ∷ []) (1 ∷ 4 ∷ []) ≡ 0 ∷ 1 ∷ [] }
    ensures needed_of_months { joins_for orders_explore (5 ∷ []) (1 ∷ []) ≡ [] }
    ensures fanned_orders { is_fanned orders_explore (0 ∷ 1 ∷ []) 0 ≡ true }
    ensures items_once { is_fanned orders_explore (0 ∷ 1 ∷ []) 2 ≡ false }
{}

/// The rows of a derived table, a query over it, and a join to it. A law: it computes nothing.
pub fn derived_tables_are_answers()
    ensures rows { regions_shop.derived
        ≡ ((word (codes "EU") ∷ units 150 ∷ []) ∷ (word (codes "US") ∷ parts 305000 ∷ []) ∷ []) ∷ [] }
    ensures totals { answer_of regions_explore regions_shop (open_query (Dim 0 ∷ Mea 0 ∷ []) [])
        ≡ whole ((dim (word (codes "EU")) ∷ sum 1500000 ∷ []) ∷ (dim (word (codes "US")) ∷ sum 305000 ∷ []) ∷ []) }
    ensures joined { answer_of regions_and_users regions_shop (open_query (Dim 0 ∷ Dim 1 ∷ []) (0 ∷ []))
        ≡ whole ((dim (word (codes "EU")) ∷ dim (units 1) ∷ []) ∷ (dim (word (codes "US")) ∷ dim (units 2) ∷ []) ∷ []) }
{}

/// What the keys of orders and items determine, which rollups fit, how queries are routed, and what a rollup keeps. A law: it computes nothing.
pub fn rollups_fit_and_regroup()
    ensures of_orders { determined_views orders_explore (0 ∷ 1 ∷ []) 0 ≡ 0 ∷ 1 ∷ [] }
    ensures of_items { determined_views orders_explore (0 ∷ 1 ∷ []) 2 ≡ 0 ∷ 1 ∷ 2 ∷ [] }
    ensures there_with_items { present_views orders_explore (0 ∷ 1 ∷ []) 2 ≡ 0 ∷ 2 ∷ [] }
    ensures by_price_total { fits orders_explore by_price (query (Dim 10 ∷ Mea 1 ∷ []) (0 ∷ 1 ∷ [])) ≡ false }
    ensures same_dimensions { fits orders_explore by_price (query (Dim 7 ∷ Dim 10 ∷ Mea 1 ∷ []) (0 ∷ 1 ∷ [])) ≡ true }
    ensures by_price_count { fits orders_explore by_price (query (Dim 10 ∷ Mea 4 ∷ []) (0 ∷ 1 ∷ [])) ≡ true }
    ensures left_join { fits orders_explore by_day (open_query (Dim 5 ∷ Mea 1 ∷ []) []) ≡ true }
    ensures inner_join { fits (orders_with Inner []) by_day (open_query (Dim 5 ∷ Mea 1 ∷ []) []) ≡ false }
    ensures routed { route_of shop_model (0 ∷ []) 1 (query (Dim 5 ∷ Mea 1 ∷ []) (0 ∷ []))
        ≡ record { number = 0; from = from.Rollup 0 } }
    ensures fresh { route_of shop_model (0 ∷ []) 1 (record (query (Dim 5 ∷ Mea 1 ∷ []) (0 ∷ [])) { fresh = true })
        ≡ record { number = 1; from = from.Current } }
    ensures price_total_routed { route_of shop_model (0 ∷ []) 1 (query (Dim 10 ∷ Mea 1 ∷ []) (0 ∷ 1 ∷ []))
        ≡ record { number = 1; from = from.Current } }
    ensures kept_by_day { partials_of orders_explore shop by_day
        ≡ kept (codes "EU") 19753 1000000 ∷ kept (codes "EU") 19754 500000 ∷ kept (codes "US") 19782 305000 ∷ [] }
    ensures stored { may_be_rolled_up orders_explore by_price ≡ true }
    ensures not_stored { may_be_stored orders_explore (0 ∷ 1 ∷ []) (measure_at orders_explore 3) ≡ false }
    ensures average { cell_of_partial op.Average (merged (merged (of_values 1000000 1) (of_values 500000 1)) (of_values 405000 2))
        ≡ fraction_cell 381 8 }
    ensures average_of_averages { option_and_then (λ total. frac_div total (frac_of_count 3)) (option_and_then (frac_add (frac_of_sum (pos 202500)))
        (frac_add (frac_of_sum (pos 1000000)) (frac_of_sum (pos 500000)))) ≡ Some (record { n = pos 227; d = pos 4 }) }
    ensures valid_table { is_valid_table items_def items ≡ true }
    ensures key_twice { is_valid_table items_def (items ++ items) ≡ false }
{}

/// What wrong definitions give on the shop beside the right ones: a total over joined rows, unknown taken as true,
/// groups without null, and rows that the caller doesn't see. A law: it computes nothing.
pub fn wrong_definitions_differ()
    ensures over_rows { total_of_rows op.Sum (given_entries orders_explore (1 ∷ []) (joined_rows orders_explore shop (0 ∷ 1 ∷ []))) ≡ pos 2805000 }
    ensures over_keys { total (pairs_of op.Sum (given_entries orders_explore (1 ∷ []) (joined_rows orders_explore shop (0 ∷ 1 ∷ [])))) ≡ pos 1805000 }
    ensures unknown_is_not_false { is_not_false (value_of not_far (record { parts = Some order_without_user ∷ None ∷ None ∷ [] })) ≡ true }
    ensures unknown_is_not_true { passing_rows near_orders [] (record { parts = Some order_without_user ∷ None ∷ None ∷ [] } ∷ []) ≡ [] }
    ensures without_null { length (groups_without_null orders_explore (10 ∷ []) (joined_rows orders_explore shop (0 ∷ 1 ∷ []))) ≡ 3 }
    ensures with_null { length (groups_of 1 (given_rows orders_explore (10 ∷ []) [] (joined_rows orders_explore shop (0 ∷ 1 ∷ [])))) ≡ 4 }
    ensures unseen_rows { answer_over_all orders_explore shop (query_of_ann (Mea 1 ∷ []) (0 ∷ []))
        ≡ whole ((sum 1805000 ∷ []) ∷ []) }
    ensures unseen_conflict { conflicts_of_all orders_explore other_shop (record (query_of_ann (Mea 3 ∷ []) (0 ∷ 1 ∷ [])) { rows = two_orders }) (3 ∷ [])
        ≡ (0, units 12) ∷ (0, units 12) ∷ [] }
{}

/// What is written at a count as its value, and at a cross join as its condition, has no effect. Joins are a set,
/// taken in declared order, and filters stand by their fields' names. A timeframe of one view is not had from that
/// of another. A law: it computes nothing.
pub fn corners_are_defined()
    ensures count_with_value { joins_for count_with_value [] (5 ∷ []) ≡ [] }
    ensures cross_with_condition { joins_for cross_with_condition (6 ∷ []) [] ≡ 0 ∷ [] }
    ensures any_order { joined_rows orders_explore shop (1 ∷ 0 ∷ 1 ∷ []) ≡ joined_rows orders_explore shop (0 ∷ 1 ∷ []) }
    ensures once_each { is_fanned orders_explore (1 ∷ 1 ∷ []) 2 ≡ false }
    ensures by_name { map (λ f. f.0) (with_always with_default (of_status (codes "open"))) ≡ 8 ∷ 2 ∷ [] }
    ensures other_view { has_field buyers_and_sellers by_buyers_day 1 ≡ false }
    ensures same_view { has_field buyers_and_sellers by_buyers_day 2 ≡ true }
{}

/// Which derived tables and datagroups an explore reaches, through persisted tables too, and which derived tables
/// read themselves. A law: it computes nothing.
pub fn derived_tables_are_reached()
    ensures tables { reached_tables chained (explore_at chained 2) ≡ 0 ∷ 1 ∷ [] }
    ensures datagroups { explore_datagroups chained (explore_at chained 2) ≡ 0 ∷ 1 ∷ [] }
    ensures route_reads_one { reached_datagroups chained (explore_at chained 2) [] ≡ 1 ∷ [] }
    ensures alone { explore_datagroups chained (explore_at chained 0) ≡ [] }
    ensures circular { reads_itself circular 0 ≡ true }
    ensures no_circle { reads_itself chained 1 ≡ false }
    ensures kinds { kind_at (leaves_of chained (explore_at chained 2)) 0 0 ≡ Some kind.Text }
{}

/// The shop is a resolved model, and variants of it are not. A law: it computes nothing.
pub fn the_shop_is_resolved()
    ensures shop { IsResolved shop_model }
    ensures count_with_value { is_typed_explore shop_model count_with_value ≡ false }
    ensures cross_with_condition { is_typed_explore shop_model cross_with_condition ≡ false }
    ensures open_greatest { is_typed_explore shop_model (with_measure op.Max kind.Text (Some open_time)) ≡ true }
    ensures open_greatest_day { is_typed_explore shop_model (with_measure op.Max kind.Day (Some open_time)) ≡ false }
    ensures null_greatest { is_typed_explore shop_model (with_measure op.Max kind.Number (Some (Literal value.Null))) ≡ false }
    ensures open_group { is_typed_explore shop_model (with_field kind.Moment (Literal value.Null) (shape.Frame 0 frame.Raw)) ≡ true }
    ensures open_group_day { is_typed_explore shop_model (with_field kind.Day (Literal value.Null) (shape.Frame 0 frame.Raw)) ≡ false }
    ensures plain_moment { is_typed_explore shop_model (with_field kind.Moment (Column 0 3) shape.Plain) ≡ false }
    ensures tiers_that_fall { is_typed_explore shop_model (with_field kind.Number (Column 0 0) (shape.Tier (pos 20 ∷ pos 10 ∷ []))) ≡ false }
    ensures list_of_none { has_whole_forms (with_field kind.Truth (In (Column 0 2) no_more) shape.Plain) ≡ false }
    ensures list_of_one { has_whole_forms (with_field kind.Truth (In (Column 0 2) (more (Literal value.Null) no_more)) shape.Plain) ≡ true }
    ensures no_branch { has_whole_forms (with_field kind.Text (Case (otherwise (Column 0 2))) shape.Plain) ≡ false }
    ensures no_argument { has_whole_forms (with_field kind.Text (Coalesce no_more) shape.Plain) ≡ false }
    ensures no_interval { is_interval (Some (pos 0)) ≡ false }
    ensures derived_query { IsInModel chained (derived_query (explore_at chained 0) (derived_from (codes "a") 0 None)) }
    ensures late_literal { is_typed_explore shop_model (with_measure op.Max kind.Day (Some (Literal (value.Day (pos 2932897))))) ≡ false }
    ensures number_over_text { is_typed_explore shop_model number_over_text ≡ false }
    ensures number_over_itself { has_grounded_measures number_over_itself ≡ false }
    ensures number_on_text { has_typed_filters (with_default_of 2 (only (is 5 ∷ []) [])) ≡ false }
    ensures unmarked_date { has_typed_filters (with_default_of 3 (only (test.Today ∷ []) [])) ≡ false }
    ensures relative_rollup { is_fixed_rollup orders_explore by_today ≡ false }
    ensures missing_key { has_exact_keys shop_model without_key ≡ false }
    ensures missing_view { has_part_for_each_join without_items ≡ false }
    ensures missing_field { is_numbered_rollup shop_model orders_explore (record by_day { dims = 11 ∷ [] }) ≡ false }
    ensures itself_read { list_all (λ d. not (reads_itself circular d)) (numbers_below (length circular.derived)) ≡ false }
    ensures two_datagroups { are_one (explore_datagroups chained (explore_at chained 2)) ≡ false }
    ensures beside_rollup { are_one (explore_datagroups chained beside_rollup) ≡ false }
{}
