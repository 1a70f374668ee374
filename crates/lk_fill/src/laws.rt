ghost use Rattle.std.specs.Prelude.{◌≡◌, ℕ, List, length};
ghost use Rattle.lk_types.specs.declared.bound.Bound.{Bound};
ghost use Rattle.lk_types.specs.declared.model.Model.{Model};
ghost use Rattle.lk_types.specs.declared.rows.Sources.{Sources};
ghost use Rattle.lk_semantics.specs.Derived.{explore_at};
ghost use Rattle.lk_semantics.specs.Resolved.{IsResolved};
ghost use Rattle.lk_semantics.specs.Rollups.{reached_datagroups};
ghost use Rattle.lk_derived.specs.ReadRows.{HasRowsFor};
ghost use Rattle.lk_fill.specs.Orders.{IsDeriveOrder, after_rounds, reads_of_each};
ghost use Rattle.lk_fill.specs.Reached.{first_of, first_reached, groups_reached};
ghost use Rattle.lk_fill.specs.Reads.{HasRowsOf, tables_read};

/// As many rounds as a resolved model has derived tables put each behind those that its query reads. A law: it computes nothing.
pub fn rounds_give_an_order()
    ensures { (m : Model) → IsResolved m → IsDeriveOrder m (after_rounds (reads_of_each m) (length m.derived)) }
{}

/// Tables that have the rows of the derived tables that a query reads have the rows that it reads. A law: it computes nothing.
pub fn wanted_rows_are_read()
    ensures { (m : Model) (s : Sources) (b : Bound) → HasRowsOf m s (tables_read (explore_at m b.explore) b.joins) → HasRowsFor m s b }
{}

/// The first of the datagroups that a query of a resolved model reaches is that to which the derived tables that it reads come first.
/// A law: it computes nothing.
pub fn first_tables_reach_first()
    ensures { (m : Model) (e : ℕ) (joins : List ℕ) → IsResolved m
        → first_of (reached_datagroups m (explore_at m e) joins) ≡ first_reached (groups_reached m) (tables_read (explore_at m e) joins) }
{}
