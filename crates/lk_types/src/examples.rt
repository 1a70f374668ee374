ghost use Rattle.std.specs.Prelude.{◌≡◌, ◌∷◌, [], true, false, pos, neg_ℤ, map, replicate, codes, Some, None};
ghost use Rattle.lk_val.specs.declared.cell.Cell.TheVariants as cell;
ghost use Rattle.lk_val.specs.declared.value.Value.TheVariants as value;
ghost use Rattle.lk_types.specs.Formula.{Column, Compare, Or, Literal, And, In, Between, Like, Number, Negate, NullIf, Case, no_more, more, when, otherwise};
ghost use Rattle.lk_types.specs.Expressions.{value_of, matches};
ghost use Rattle.lk_types.specs.Timeframes.{timeframe_of};
ghost use Rattle.lk_types.specs.Filters.{passes, placed, is_filter_of};
ghost use Rattle.lk_types.specs.Tables.{is_cell};
ghost use Rattle.lk_types.specs.Printing.{cell_json};
ghost use Rattle.lk_types.specs.Unfolded.{any_equal, listed, ranged, null_if};
ghost use Rattle.lk_types.specs.Shapes.{tier_of, shaped_kind};
ghost use Rattle.lk_types.specs.Samples.{units, parts, word, only, is, at, interval, days, beside_first_column};
ghost use Rattle.lk_types.specs.declared.rows.Joined.{Joined};
ghost use Rattle.lk_types.specs.declared.schema.Frame.TheVariants as frame;
ghost use Rattle.lk_types.specs.declared.schema.Kind.TheVariants as kind;
ghost use Rattle.lk_types.specs.declared.explore.Shape.TheVariants as shape;
ghost use Rattle.lk_types.specs.declared.expr.Comparison.TheVariants as comparison;
ghost use Rattle.lk_types.specs.declared.expr.Arithmetic.TheVariants as arithmetic;
ghost use Rattle.lk_types.specs.declared.expr.Piece.TheVariants as piece;
ghost use Rattle.lk_types.specs.declared.filter.Edge.TheVariants as edge;
ghost use Rattle.lk_types.specs.declared.filter.Test.TheVariants as test;
ghost use Rattle.lk_types.specs.declared.filter.Period.TheVariants as period;
ghost use Rattle.lk_types.specs.declared.explore.Op.TheVariants as op;
ghost use Rattle.lk_types.specs.declared.answer.RouteFrom.TheVariants as from;

/// Arithmetic at its edges, the three truth values, patterns and tiers. A law: it computes nothing.
pub fn expressions_are_computed()
    ensures third { (row : Joined) → value_of (Number arithmetic.Over (Literal (units 100)) (Literal (units 3))) row ≡ parts 333333 }
    ensures minus_sixth { (row : Joined) → value_of (Number arithmetic.Over (Negate (Literal (units 1))) (Literal (units 6))) row ≡ value.Num (record { 0 = neg_ℤ (pos 1667) }) }
    ensures over_zero { (row : Joined) → value_of (Number arithmetic.Over (Literal (units 1)) (Literal (units 0))) row ≡ value.Null }
    ensures past_the_range { (row : Joined) → value_of (Number arithmetic.Times (Literal (parts 9223372036854775807)) (Literal (parts 9223372036854775807))) row ≡ value.Null }
    ensures unknown_and_false { (row : Joined) → value_of (And (Literal value.Null) (Literal (value.Truth false))) row ≡ value.Truth false }
    ensures in_with_null { (row : Joined) → value_of (In (Literal (units 2)) (more (Literal (units 1)) (more (Literal value.Null) no_more))) row ≡ value.Null }
    ensures quoted_percent { (row : Joined) → value_of (Like (Literal (word (codes "a%b"))) (map piece.Byte (codes "a%b"))) row ≡ value.Truth true }
    ensures one_character { matches (piece.One ∷ map piece.Byte (codes "x")) (195 ∷ 169 ∷ 120 ∷ []) ≡ true }
    ensures at_a_bound { tier_of (pos 0 ∷ pos 60 ∷ []) (units 60) ≡ units 60 }
    ensures below_the_bounds { tier_of (pos 0 ∷ pos 60 ∷ []) (value.Num (record { 0 = neg_ℤ (pos 1) }))
        ≡ value.Num (record { 0 = neg_ℤ (pos 9223372036854775808) }) }
{}

/// Timeframes of the last second of January 2024, of a leap day, at both ends of the years, and before 1970. A law: it computes nothing.
pub fn timeframes_are_computed()
    ensures week { timeframe_of frame.Week (value.Moment (pos 1706745599)) ≡ value.Day (pos 19751) }
    ensures quarter { timeframe_of frame.Quarter (value.Moment (pos 1706745599)) ≡ value.Day (pos 19723) }
    ensures hour { timeframe_of frame.HourOfDay (value.Moment (pos 1706745599)) ≡ units 23 }
    ensures weekday { timeframe_of frame.DayOfWeek (value.Moment (pos 1706745599)) ≡ word (codes "Wednesday") }
    ensures day { timeframe_of frame.DayOfMonth (value.Moment (pos 1706745599)) ≡ units 31 }
    ensures leap_day { timeframe_of frame.DayOfMonth (value.Day (pos 19782)) ≡ units 29 }
    ensures last_month { timeframe_of frame.Month (value.Day (pos 2932896)) ≡ value.Day (pos 2932866) }
    ensures first_year { timeframe_of frame.Year (value.Day (neg_ℤ (pos 719162))) ≡ value.Day (neg_ℤ (pos 719162)) }
    ensures before_1970 { timeframe_of frame.Date (value.Moment (neg_ℤ (pos 1))) ≡ value.Day (neg_ℤ (pos 1)) }
{}

/// Filters on numbers and texts, with null, the ends of intervals, and relative dates at 2024-03-02 12:00:00. A law: it computes nothing.
pub fn filters_pass_values()
    ensures not_five { map (passes (only [] (is 5 ∷ is 7 ∷ []))) (units 5 ∷ units 6 ∷ units 7 ∷ value.Null ∷ [])
        ≡ false ∷ true ∷ false ∷ true ∷ [] }
    ensures half_open { map (passes (only (interval (at 5) true (at 90) false ∷ []) [])) (units 5 ∷ units 90 ∷ value.Null ∷ [])
        ≡ true ∷ false ∷ false ∷ [] }
    ensures up_to_five { map (passes (only (interval edge.Lowest false (at 5) true ∷ []) [])) (units 4 ∷ units 5 ∷ units 6 ∷ [])
        ≡ true ∷ true ∷ false ∷ [] }
    ensures above_all { map (passes (only (interval edge.Highest false (at 5) true ∷ []) [])) (units 4 ∷ units 5 ∷ units 6 ∷ [])
        ≡ false ∷ false ∷ false ∷ [] }
    ensures with_percent { map (passes (only (test.Like (piece.Any ∷ piece.Byte 97 ∷ piece.Byte 37 ∷ piece.Any ∷ []) ∷ []) []))
        (word (codes "xa%y") ∷ word (codes "xay") ∷ []) ≡ true ∷ false ∷ [] }
    ensures not_open { map (passes (only [] (test.Like (map piece.Byte (codes "open")) ∷ []))) (word (codes "open") ∷ value.Null ∷ [])
        ≡ false ∷ true ∷ [] }
    ensures empty_or_null { map (passes (only (test.Empty ∷ []) [])) (value.Null ∷ word [] ∷ word (codes "x") ∷ [])
        ≡ true ∷ true ∷ false ∷ [] }
    ensures relative_dates { (placed (pos 1709380800) (only (test.This period.Week ∷ test.Last period.Quarter ∷ test.Recent 3 period.Day
        ∷ test.Recent 2 period.Month ∷ test.Ago 1 period.Month ∷ []) [])).include
        ≡ days 19779 19786 ∷ days 19631 19723 ∷ days 19782 19785 ∷ days 19754 19814 ∷ days 19754 19783 ∷ [] }
{}

/// Which values a cell of a table may have, what null is in JSON, the kinds of shapes, and a text that is a day in
/// one comparison and a text in the other. A law: it computes nothing.
pub fn cells_and_shapes_are_told_apart()
    ensures empty_text { is_cell (word []) ≡ false }
    ensures long_text { is_cell (word (replicate 4097 97)) ≡ false }
    ensures late_day { is_cell (value.Day (pos 2932897)) ≡ false }
    ensures last_day { is_cell (value.Day (pos 2932896)) ≡ true }
    ensures null_in_json { cell_json shape.Plain (cell.Value value.Null) ≡ None }
    ensures empty_in_json { cell_json shape.Plain (cell.Value (word [])) ≡ Some [] }
    ensures tier_in_json { cell_json (shape.Tier (pos 0 ∷ [])) (cell.Value value.Null) ≡ Some (codes "Undefined") }
    ensures hour { shaped_kind (shape.Frame 0 frame.HourOfDay) kind.Moment ≡ kind.Number }
    ensures weekday { shaped_kind (shape.Frame 0 frame.DayOfWeek) kind.Moment ≡ kind.Text }
    ensures date { shaped_kind (shape.Frame 0 frame.Date) kind.Moment ≡ kind.Day }
    ensures each_side { any_equal ((Literal (value.Day (pos 19723)), Column 0 0) ∷ (Literal (word (codes "2024-01-01")), Column 0 1) ∷ [])
        ≡ Or (Or (Literal (value.Truth false)) (Compare comparison.Equal (Literal (value.Day (pos 19723))) (Column 0 0))) (Compare comparison.Equal (Literal (word (codes "2024-01-01"))) (Column 0 1)) }
    ensures one_item { any_equal ((Column 0 0, Column 0 1) ∷ []) ≡ Or (Literal (value.Truth false)) (Compare comparison.Equal (Column 0 0) (Column 0 1)) }
    ensures literal_in { listed beside_first_column (Literal (word (codes "2024-01-01"))) (more (Column 0 0) (more (Column 0 1) no_more))
        ≡ Or (Or (Literal (value.Truth false)) (Compare comparison.Equal (Literal (value.Day (pos 19723))) (Column 0 0))) (Compare comparison.Equal (Literal (word (codes "2024-01-01"))) (Column 0 1)) }
    ensures in_literals { listed beside_first_column (Column 0 0) (more (Literal (word (codes "2024-01-01"))) (more (Column 0 1) no_more))
        ≡ In (Column 0 0) (more (Literal (value.Day (pos 19723))) (more (Column 0 1) no_more)) }
    ensures literal_between { ranged beside_first_column (Literal (word (codes "2024-01-01"))) (Column 0 0) (Column 0 1)
        ≡ And (Compare comparison.AtLeast (Literal (value.Day (pos 19723))) (Column 0 0)) (Compare comparison.AtMost (Literal (word (codes "2024-01-01"))) (Column 0 1)) }
    ensures between_literals { ranged beside_first_column (Column 0 0) (Literal (word (codes "2024-01-01"))) (Column 0 1)
        ≡ Between (Column 0 0) (Literal (value.Day (pos 19723))) (Column 0 1) }
    ensures literal_or_null { null_if beside_first_column (Literal (word (codes "2024-01-01"))) (Column 0 0)
        ≡ Case (when (Compare comparison.Equal (Literal (value.Day (pos 19723))) (Column 0 0)) (Literal value.Null) (otherwise (Literal (word (codes "2024-01-01"))))) }
    ensures null_if_literal { null_if beside_first_column (Column 0 0) (Literal (word (codes "2024-01-01"))) ≡ NullIf (Column 0 0) (Literal (value.Day (pos 19723))) }
    ensures number_on_text { is_filter_of kind.Text (only (is 5 ∷ []) []) ≡ false }
    ensures number_on_number { is_filter_of kind.Number (only (is 5 ∷ []) []) ≡ true }
    ensures text_is_text { is_filter_of kind.Text (only (test.Like (piece.Any ∷ []) ∷ test.Empty ∷ []) (test.Null ∷ [])) ≡ true }
    ensures no_pattern { is_filter_of kind.Text (only (test.Like [] ∷ []) []) ≡ false }
    ensures no_comparison { is_filter_of kind.Number (only (test.Compare [] ∷ []) []) ≡ false }
    ensures equal_compared { is_filter_of kind.Number (only (test.Compare ((comparison.Equal, record { 0 = pos 5 }) ∷ []) ∷ []) []) ≡ false }
    ensures no_end { is_filter_of kind.Number (only (test.To None None ∷ []) []) ≡ false }
    ensures not_null { is_filter_of kind.Day (only [] (test.Null ∷ [])) ≡ true }
    ensures no_days_out { is_filter_of kind.Day (only [] (days 19723 19724 ∷ [])) ≡ false }
    ensures this_day { is_filter_of kind.Moment (record { include = test.This period.Day ∷ []; exclude = []; relative = true }) ≡ false }
    ensures this_week { is_filter_of kind.Moment (record { include = test.This period.Week ∷ []; exclude = []; relative = true }) ≡ true }
    ensures yes { is_filter_of kind.Truth (only (test.Truth true ∷ []) []) ≡ true }
    ensures not_yes { is_filter_of kind.Truth (only [] (test.Truth true ∷ [])) ≡ false }
    ensures unmarked { is_filter_of kind.Day (only (test.Today ∷ []) []) ≡ false }
{}
