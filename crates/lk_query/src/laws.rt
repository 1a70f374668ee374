// Laws of binding. Each is a function that computes nothing: its clauses are the law.

ghost use Rattle.std.specs.Prelude.{◌≡◌, ◌≤◌, ℕ, ℤ, List, Ok, Result, length, true};
ghost use Rattle.std.specs.List.{AllByRecursion};
ghost use Rattle.lk_val.specs.Years.{IsMomentInYears};
ghost use Rattle.lk_types.specs.Filters.{is_filter_of, placed};
ghost use Rattle.lk_types.specs.declared.bound.Bound.{Bound};
ghost use Rattle.lk_types.specs.declared.bound.Query.{Query};
ghost use Rattle.lk_types.specs.declared.filter.Filter.{Filter};
ghost use Rattle.lk_types.specs.declared.model.Model.{Model};
ghost use Rattle.lk_types.specs.declared.schema.Kind.{Kind};
ghost use Rattle.lk_semantics.specs.Resolved.{IsInModel, IsResolved};
ghost use Rattle.lk_filter.specs.FilterTexts.{IsFilterText};
ghost use Rattle.lk_schema.specs.declared.users.Users.{Users};
ghost use Rattle.lk_body.specs.declared.fault.QueryFault.{QueryFault};
ghost use Rattle.lk_query.specs.Bindings.{IsBodyBound, IsBound};
ghost use Rattle.lk_query.specs.Names.{filter_kind_of};

/// A query of a caller at a moment binds to one query, or has one first refusal. A law: it computes nothing.
pub fn bound_queries_are_determined()
    ensures { (m : Model) (users : Users) (user explore : List ℕ) (q : Query) (now : ℤ)
        (r s : Result Bound QueryFault)
        → IsBound m users user explore q now r → IsBound m users user explore q now s → r ≡ s }
{}

/// A caller's body at a moment binds to one query, or has one first refusal. A law: it computes nothing.
pub fn bound_bodies_are_determined()
    ensures { (m : Model) (users : Users) (user explore body : List ℕ) (now : ℤ)
        (r s : Result Bound QueryFault)
        → IsBodyBound m users user explore body now r → IsBodyBound m users user explore body now s
        → r ≡ s }
{}

/// The filter that a text spells for values of a kind is a filter of the kind, and it stays one at a moment of the years 1
/// to 9999. A law: it computes nothing. (Looker, filter expressions)
pub fn filters_are_of_their_kinds()
    ensures read { (k : Kind) (f : Filter) (text : List ℕ)
        → IsFilterText (filter_kind_of k) f text → is_filter_of k f ≡ true }
    ensures placed { (k : Kind) (f : Filter) (now : ℤ)
        → IsMomentInYears now → is_filter_of k f ≡ true → is_filter_of k (placed now f) ≡ true }
{}

/// What a query or a body over a resolved model binds to, at a moment of the years 1 to 9999, is a query of the model: its
/// numbers are the model's, its filters are of their fields' kinds, no relative date is left, and its limit is in range.
/// A law: it computes nothing.
pub fn bound_queries_are_in_their_model()
    ensures query { (m : Model) (users : Users) (user explore : List ℕ) (q : Query) (now : ℤ)
        (b : Bound)
        → IsResolved m → IsMomentInYears now → IsBound m users user explore q now (Ok b)
        → IsInModel m b }
    ensures body { (m : Model) (users : Users) (user explore body : List ℕ) (now : ℤ) (b : Bound)
        → IsResolved m → IsMomentInYears now → IsBodyBound m users user explore body now (Ok b)
        → IsInModel m b }
{}

/// The explores of a resolved model have at most 31 joins, as `bind` asks. A law: it computes nothing. (lookd)
pub fn resolved_models_have_few_joins()
    ensures { (m : Model) → IsResolved m → AllByRecursion (λ x. length x.joins ≤ 31) m.explores }
{}
