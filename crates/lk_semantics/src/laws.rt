ghost use Rattle.std.specs.Prelude.{◌≡◌, ◌++◌, ◌∷◌, ℕ, List, true, length, filter, map, not, [], IsPermutation};
ghost use Rattle.lk_val.specs.Values.{is_same_tuple};
ghost use Rattle.std.specs.List.{list_all};
ghost use Rattle.lk_types.specs.Dates.{is_row_dated};
ghost use Rattle.lk_semantics.specs.DatedRows.{are_sources_dated};
ghost use Rattle.lk_semantics.specs.Derived.{derived_rows, sources_of};
ghost use Rattle.lk_semantics.specs.Reading.{reads_itself};
ghost use Rattle.lk_types.specs.declared.model.Model.{Model};
ghost use Rattle.lk_types.specs.declared.rows.Tables.{Tables};
ghost use Rattle.lk_types.specs.declared.rows.Sources.{Sources};
ghost use Rattle.lk_semantics.specs.Joins.{joined_rows, numbers_below, IsClosedUnderNeed, needed_joins};
ghost use Rattle.lk_types.specs.Expressions.{has_number};
ghost use Rattle.lk_semantics.specs.Measures.{Entry, groups_of, pairs_of};
ghost use Rattle.lk_types.specs.declared.answer.GivenRow.{GivenRow};
ghost use Rattle.lk_semantics.specs.Rollups.{Standing, AreClosedUnderRules, is_same_standing, standings};
ghost use Rattle.lk_val.specs.Least.{is_in};
ghost use Rattle.lk_semantics.specs.Isolation.{IsIsolated};
ghost use Rattle.lk_types.specs.declared.explore.Explore.{Explore};
ghost use Rattle.lk_types.specs.declared.explore.Op.{Op};

/// An answer depends on the tables through the visible rows alone: where these are equal, so are the answers,
/// conflicts included. A law: it computes nothing.
pub fn answers_are_isolated()
    ensures isolated { IsIsolated }
{}

/// The pairs of a measure are a set: they depend on no order of the rows, and rows that come again add none.
/// A law: it computes nothing.
pub fn pairs_are_a_set()
    ensures order { (op : Op) (us vs : List Entry) → IsPermutation us vs → pairs_of op us ≡ pairs_of op vs }
    ensures again { (op : Op) (us vs : List Entry) → pairs_of op (us ++ (vs ++ us)) ≡ pairs_of op (us ++ vs) }
{}

/// Each row is in exactly one group. A law: it computes nothing.
pub fn each_row_has_one_group()
    ensures one { (dims : ℕ) (front rest : List GivenRow) (row : GivenRow) → length row.group ≡ dims
        → filter (is_same_tuple row.group) (groups_of dims (front ++ row ∷ rest)) ≡ row.group ∷ [] }
{}

/// The needed joins are closed under what they ask for, and lie in every closed list of joins. A law: it computes
/// nothing.
pub fn needed_joins_are_least()
    ensures closed { (x : Explore) (parts : List ℕ) → IsClosedUnderNeed x parts (needed_joins x parts) }
    ensures least { (x : Explore) (parts joins : List ℕ) → IsClosedUnderNeed x parts joins
        → (j : ℕ) → has_number j (needed_joins x parts) ≡ true → has_number j joins ≡ true }
{}

/// What the key of a view determines is closed under the rules by which views are determined and present, and
/// lies in every closed list. A law: it computes nothing.
pub fn determined_views_are_least()
    ensures closed { (x : Explore) (joins : List ℕ) (v : ℕ) → AreClosedUnderRules x joins v (standings x joins v) }
    ensures least { (x : Explore) (joins : List ℕ) (v : ℕ) (known : List Standing) → AreClosedUnderRules x joins v known
        → (s : Standing) → is_in is_same_standing s (standings x joins v) ≡ true → is_in is_same_standing s known ≡ true }
{}

/// The joined rows of tables whose days and moments are of the years 1 to 9999 are so too. A law: it computes nothing.
pub fn joined_rows_are_dated()
    ensures { (x : Explore) (s : Sources) (joins : List ℕ) → are_sources_dated s ≡ true → list_all is_row_dated (joined_rows x s joins) ≡ true }
{}

/// Where no derived table reads itself, the rows of each derived table are the answer of its query over the stored
/// tables and the rows of all derived tables. A law: it computes nothing.
pub fn derived_rows_are_whole()
    ensures { (m : Model) (t : Tables) → list_all (λ d. not (reads_itself m d)) (numbers_below (length m.derived)) ≡ true
        → (sources_of m t).derived ≡ map (derived_rows m (sources_of m t)) m.derived }
{}
