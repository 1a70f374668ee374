ghost use Rattle.std.specs.Prelude.{◌≡◌, ◌∷◌, [], true, false, map, codes};
ghost use Rattle.lk_sql_tree.specs.Texts.{text_then};
ghost use Rattle.lk_sql_tree.specs.Forms.{over_groups, over_rows};
ghost use Rattle.lk_sql_tree.specs.SelectTexts.{select_text};
ghost use Rattle.lk_sql_tree.specs.SelectForms.{is_printable};
ghost use Rattle.lk_sql_tree.specs.Examples.{counts, day_and_moment, each_form_text, of_each_form, quoted_names, quoted_names_text, total_and_count, total_and_count_text, total_by_month, total_by_month_text};

/// Worked SELECTs over a shop, byte for byte. A law: it computes nothing.
pub fn selects_have_their_texts()
    ensures total_and_count { select_text total_and_count ≡ total_and_count_text }
    ensures total_by_month { select_text total_by_month ≡ total_by_month_text }
    ensures quoted_names { select_text quoted_names ≡ quoted_names_text }
    ensures each_form { text_then of_each_form [] ≡ each_form_text }
    ensures counts { map (λ e. text_then e []) counts
        ≡ codes "COUNT(*)" ∷ codes "COUNT(CASE WHEN ((\"users\".\"region\" LIKE '%') OR (\"users\".\"region\" IS NULL)) THEN 1 END)" ∷ [] }
    ensures day_and_moment { map (λ e. text_then e []) day_and_moment
        ≡ codes "DATE '2024-01-01'" ∷ codes "TIMESTAMP '2024-01-02 00:00:00'" ∷ [] }
{}

/// A SELECT of aggregates and one of columns are printed; a column does not stand beside an aggregate. A law: it
/// computes nothing.
pub fn selects_are_told_apart()
    ensures total_and_count { is_printable total_and_count ≡ true }
    ensures total_by_month { is_printable total_by_month ≡ true }
    ensures over_rows { over_rows of_each_form ≡ true }
    ensures not_over_groups { over_groups of_each_form ≡ false }
{}
