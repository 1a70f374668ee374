// Expressions with their text literals read, computed by the definitions.

ghost use Rattle.std.specs.Prelude.{◌≡◌, [], codes, pos, true, false};
ghost use Rattle.lk_val.specs.declared.value.Value.TheVariants as value;
ghost use Rattle.lk_types.specs.Formula.{Between, Case, Compare, In, Literal, NullIf, Or, more, no_more, otherwise, when};
ghost use Rattle.lk_types.specs.declared.expr.Comparison.TheVariants as comparison;
ghost use Rattle.lk_dated.specs.Samples.{day_column, moment_column, read, text, text_column};

/// What some comparisons with text literals are. A law: it computes nothing.
#[tactic(auto, unfolding(lk_cell::specs::Days::day_of, lk_cell::specs::Moments::second_behind, lk_cell::specs::Moments::moment_cell))]
pub fn text_literals_are_read_as_compared()
    ensures day { read (Compare comparison.AtLeast day_column (text (codes "2024-01-01"))) ≡ Compare comparison.AtLeast day_column (Literal (value.Day (pos 19723))) }
    ensures moment { read (Compare comparison.AtLeast moment_column (text (codes "2024-01-01"))) ≡ Compare comparison.AtLeast moment_column (Literal (value.Moment (pos 1704067200))) }
    ensures open { read (Compare comparison.Less (text (codes "2024-01-01")) (NullIf (Literal value.Null) day_column))
        ≡ Compare comparison.Less (Literal (value.Moment (pos 1704067200))) (NullIf (Literal value.Null) day_column) }

    ensures in_list { read (In (text (codes "2024-01-01")) (more day_column (more text_column no_more)))
        ≡ Or (Or (Literal (value.Truth false)) (Compare comparison.Equal (Literal (value.Day (pos 19723))) day_column)) (Compare comparison.Equal (text (codes "2024-01-01")) text_column) }
    ensures among { read (In day_column (more (text (codes "2024-01-01")) (more (text (codes "soon")) no_more)))
        ≡ In day_column (more (Literal (value.Day (pos 19723))) (more (text (codes "soon")) no_more)) }
    ensures range { read (Between day_column (text (codes "2024-01-01")) (text (codes "2024-01-02"))) ≡ Between day_column (Literal (value.Day (pos 19723))) (Literal (value.Day (pos 19724))) }

    ensures unread { read (Compare comparison.Equal day_column (text (codes "2024-02-30"))) ≡ Compare comparison.Equal day_column (text (codes "2024-02-30")) }
    ensures clock { read (Compare comparison.Equal day_column (text (codes "2024-01-01 12:00:00"))) ≡ Compare comparison.Equal day_column (text (codes "2024-01-01 12:00:00")) }
    ensures empty { read (Compare comparison.Equal day_column (text [])) ≡ Compare comparison.Equal day_column (text []) }
    ensures null { read (Compare comparison.Equal (Literal value.Null) (text (codes "2024-01-01"))) ≡ Compare comparison.Equal (Literal value.Null) (text (codes "2024-01-01")) }
    ensures branch { read (Case (when (Literal (value.Truth true)) (text (codes "2024-01-01")) (otherwise day_column)))
        ≡ Case (when (Literal (value.Truth true)) (text (codes "2024-01-01")) (otherwise day_column)) }
{}
