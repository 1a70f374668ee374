ghost use Rattle.std.specs.Prelude.{◌≡◌, ◌+◌, length, true};
ghost use Rattle.lk_types.specs.declared.explore.Explore.{Explore};
ghost use Rattle.lk_types.specs.declared.model.Model.{Model};
ghost use Rattle.lk_semantics.specs.DatedRows.{are_joins_dated};
ghost use Rattle.lk_semantics.specs.Resolved.{IsResolvedExplore};
ghost use Rattle.lk_gather.specs.Measures.{is_fine_explore};

/// An explore of a resolved model has all that `answer` asks of an explore. A law: it computes nothing.
pub fn resolved_explores_are_fine()
    ensures parts { (m : Model) (x : Explore) → IsResolvedExplore m x → length x.parts ≡ length x.joins + 1 }
    ensures explore { (m : Model) (x : Explore) → IsResolvedExplore m x → is_fine_explore x ≡ true }
    ensures conditions { (m : Model) (x : Explore) → IsResolvedExplore m x → are_joins_dated x ≡ true }
{}
