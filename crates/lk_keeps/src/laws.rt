ghost use Rattle.std.specs.Prelude.{◌≡◌, ℕ, List, if◌then◌else◌, length};
ghost use Rattle.lk_types.specs.Expressions.{has_number};
ghost use Rattle.lk_types.specs.Tables.{Rows};
ghost use Rattle.lk_types.specs.declared.model.Model.{Model};
ghost use Rattle.lk_semantics.specs.Joins.{numbers_below};
ghost use Rattle.lk_semantics.specs.Resolved.{IsResolved};
ghost use Rattle.lk_keeps.specs.Anew.{keeps_anew};
ghost use Rattle.lk_keeps.specs.Keeps.{keeps_of, no_keeps};

/// Some datagroups built anew over tables, where each was built over some, leave what is kept where these were built over those
/// tables and the others as before. A law: it computes nothing.
pub fn what_is_built_anew_is_kept()
    ensures { (m : Model) (groups : List ℕ) (stored : List Rows) (built : ℕ → List Rows)
        → keeps_anew m groups stored (keeps_of m built) ≡ keeps_of m (λ g. if has_number g groups then stored else built g) }
{}

/// All datagroups of a resolved model, built where nothing is kept, leave what is kept where all were built over the tables. A law:
/// it computes nothing.
pub fn all_built_anew_are_whole()
    ensures { (m : Model) (stored : List Rows) → IsResolved m
        → keeps_anew m (numbers_below (length m.datagroups)) stored no_keeps ≡ keeps_of m (λ g. stored) }
{}
