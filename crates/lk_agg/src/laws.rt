ghost use Rattle.std.specs.Prelude.{◌≡◌, ◌++◌, ℕ, List, true};
ghost use Rattle.lk_semantics.specs.Answers.{given_rows, ops_of};
ghost use Rattle.lk_semantics.specs.Measures.{Entry, uses_key};
ghost use Rattle.lk_semantics.specs.Rollups.{merged, partial_of};
ghost use Rattle.lk_types.specs.declared.explore.Explore.{Explore};
ghost use Rattle.lk_types.specs.declared.explore.Op.{Op};
ghost use Rattle.lk_types.specs.declared.rows.Joined.{Joined};
ghost use Rattle.lk_agg.specs.Merging.{AreApart, without_distinct};
ghost use Rattle.lk_agg.specs.Regular.{AreRegular};

/// What the passing rows of a query give to its measures is regular: a measure has keys in all rows or in none, and
/// each row stands at a place of its own. A law: it computes nothing.
pub fn given_rows_are_regular()
    ensures { (x : Explore) (dims measures : List ℕ) (passing : List Joined)
        → AreRegular (ops_of x measures) (given_rows x dims measures passing) }
{}

/// The parts of two lists of rows without a common pair, put together, are those of both lists, but for the number of
/// different values. A law: it computes nothing.
pub fn merged_parts_are_of_all_rows()
    ensures { (op : Op) (us vs : List Entry) → (uses_key op ≡ true → AreApart op us vs)
        → without_distinct (merged (partial_of op us) (partial_of op vs))
        ≡ without_distinct (partial_of op (us ++ vs)) }
{}
