ghost use Rattle.std.specs.Prelude.{ℕ, ℤ, List};
ghost use Rattle.lk_types.specs.declared.model.Model.{Model};
ghost use Rattle.lk_filter.specs.declared.reading.FilterKind.{FilterKind};
ghost use Rattle.lk_expr_place.specs.declared.judging.Grammar.{Grammar};
ghost use Rattle.lk_schema.specs.declared.users.Users.{Users};
ghost use Rattle.lk_complete_laws.specs.Bodies.{IsBodyRead};
ghost use Rattle.lk_complete_laws.specs.Holding.{HoldsOfSome};
ghost use Rattle.lk_complete_laws.specs.Readings.{IsExprRead, IsFilterRead};

use lk_filter::filter_texts_spell_one_filter;

/// Each text is a filter of a kind or has the place of its fault: what reading it promises holds of something that is not want of
/// memory. A law: it computes nothing.
pub fn texts_are_filters_or_refused()
    ensures { (k : FilterKind) (text : List ℕ) → HoldsOfSome (IsFilterRead k text) }
{
    filter_texts_spell_one_filter();
}

/// Each text is an expression, or a measure's, whose calls are known, or has the place of its fault. A law: it computes nothing.
pub fn texts_are_expressions_or_refused()
    ensures { (g : Grammar) (text : List ℕ) → HoldsOfSome (IsExprRead g text) }
{}

/// Each body of a query binds to something or has a first refusal, whoever asks, over which explore and when. A law: it computes
/// nothing.
pub fn bodies_bind_or_are_refused()
    ensures { (m : Model) (users : Users) (user explore body : List ℕ) (now : ℤ)
        → HoldsOfSome (IsBodyRead m users user explore body now) }
{
    texts_are_filters_or_refused();
}
