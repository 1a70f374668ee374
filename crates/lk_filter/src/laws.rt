// Laws of texts, of relative dates and of sameness. Each is a function that computes nothing: its clauses are the law.

ghost use Rattle.std.specs.Prelude.{◌≡◌, ◌+◌, ◌<◌, ◌&&◌, ◌==◌, nat_le, nat_lt, ℕ, ℤ, List, Option, true, false};
ghost use Rattle.lk_val.specs.Fractions.{Fraction};
ghost use Rattle.lk_val.specs.declared.value.Value.{Value};
ghost use Rattle.lk_types.specs.Calendar.{from_1970};
ghost use Rattle.lk_types.specs.Filters.{placed, placed_test, passes, passes_frac, day_meets, is_same_test, is_same_filter, unit_of, unit_start, is_placed};
ghost use Rattle.lk_types.specs.declared.filter.Filter.{Filter};
ghost use Rattle.lk_types.specs.declared.filter.Period.{Period};
ghost use Rattle.lk_types.specs.declared.filter.Test.{Test};
ghost use Rattle.lk_types.specs.declared.filter.Test.TheVariants as test;
ghost use Rattle.lk_types.specs.declared.model.Model.{Model};
ghost use Rattle.lk_filter.specs.declared.reading.FilterKind.{FilterKind};
ghost use Rattle.lk_filter.specs.FilterTexts.{IsFilterText, IsFaultPlace};
ghost use Rattle.lk_filter.specs.PlacedModel.{placed_model, is_placed_model};
ghost use Rattle.lk_filter.specs.Placing.{IsInItsUnit, IsWithinYears};

/// A text spells one filter of a kind, if any. A law: it computes nothing.
pub fn filter_texts_spell_one_filter()
    ensures { (k : FilterKind) (text : List ℕ) (f g : Filter) → IsFilterText k f text → IsFilterText k g text → f ≡ g }
{}

/// A text has one place at which it is refused as a filter of a kind. A law: it computes nothing.
pub fn faults_have_one_place()
    ensures { (k : FilterKind) (text : List ℕ) (m n : ℕ) → IsFaultPlace k text m → IsFaultPlace k text n → m ≡ n }
{}

/// A placed filter has no relative date, a filter without relative dates keeps its tests, and no filter of a placed
/// model has a relative date. A law: it computes nothing.
pub fn placing_leaves_no_relative_date()
    ensures placed { (now : ℤ) (f : Filter) → is_placed (placed now f) ≡ true }
    ensures kept { (now : ℤ) (f : Filter) → is_placed f ≡ true → placed now f ≡ record f { relative = false } }
    ensures models { (now : ℤ) (m : Model) → is_placed_model (placed_model now m) ≡ true }
{}

/// The units of a period divide the days: each day lies in the unit that has its number, and each unit begins before
/// the next. Days and units count from the first of year 1. A law: it computes nothing.
pub fn units_divide_the_days()
    ensures lies { (p : Period) (day : ℕ) → IsInItsUnit p day }
    ensures grow { (p : Period) (unit : ℕ) → unit_start p unit < unit_start p (unit + 1) }
{}

/// A day of the years 1 to 9999 meets a relative date exactly where its unit is the one that is meant: today's, the
/// one before it, one of the n that end with today's, or the one that is n before it. Days count from the first of
/// year 1. A law: it computes nothing. (Looker, filter expressions: date)
pub fn relative_dates_mean_units()
    ensures today { (today day : ℕ) → IsWithinYears day
        → day_meets (from_1970 day) (placed_test today test.Today) ≡ (day == today) }
    ensures yesterday { (today day : ℕ) → IsWithinYears day
        → day_meets (from_1970 day) (placed_test today test.Yesterday) ≡ (day + 1 == today) }
    ensures this { (p : Period) (today day : ℕ) → IsWithinYears day
        → day_meets (from_1970 day) (placed_test today (test.This p)) ≡ (unit_of p day == unit_of p today) }
    ensures last { (p : Period) (today day : ℕ) → IsWithinYears day
        → day_meets (from_1970 day) (placed_test today (test.Last p)) ≡ (unit_of p day + 1 == unit_of p today) }
    ensures recent { (n : ℕ) (p : Period) (today day : ℕ) → IsWithinYears day
        → day_meets (from_1970 day) (placed_test today (test.Recent n p))
        ≡ (nat_le (unit_of p day) (unit_of p today) && nat_lt (unit_of p today) (unit_of p day + n)) }
    ensures ago { (n : ℕ) (p : Period) (today day : ℕ) → IsWithinYears day
        → day_meets (from_1970 day) (placed_test today (test.Ago n p)) ≡ (unit_of p day + n == unit_of p today) }
{}

/// Sameness is an equivalence of filters, and two tests are the same exactly where they are equal. A law: it computes
/// nothing.
pub fn sameness_is_an_equivalence()
    ensures reflexive { (f : Filter) → is_same_filter f f ≡ true }
    ensures symmetric { (f g : Filter) → is_same_filter f g ≡ is_same_filter g f }
    ensures transitive { (f g h : Filter) → is_same_filter f g ≡ true → is_same_filter g h ≡ true
        → is_same_filter f h ≡ true }
    ensures equal { (s t : Test) → is_same_test s t ≡ true → s ≡ t }
    ensures itself { (t : Test) → is_same_test t t ≡ true }
{}

/// The same filters pass the same values, and the same fractions. A law: it computes nothing.
pub fn same_filters_pass_the_same()
    ensures values { (f g : Filter) (v : Value) → is_same_filter f g ≡ true → passes f v ≡ passes g v }
    ensures fractions { (f g : Filter) (x : Option Fraction) → is_same_filter f g ≡ true
        → passes_frac f x ≡ passes_frac g x }
{}
