ghost use Rattle.std.specs.Prelude.{◌≡◌, ℕ, Bool, List, Option};
ghost use Rattle.lk_objects.specs.declared.code.Code.{Code};
ghost use Rattle.lk_objects.specs.declared.filter_text.FilterText.{FilterText};
ghost use Rattle.lk_written.specs.Codes.{IsCode};
ghost use Rattle.lk_written.specs.ReadFilters.{AreFilters};

/// A text says one thing: code is read as one expression or has one fault, and filters are read as the same ones.
/// A law: it computes nothing.
pub fn texts_say_one_thing()
    ensures codes { (over_measures : Bool) (text : Option (List ℕ)) (c d : Code)
        → IsCode over_measures text c → IsCode over_measures text d → c ≡ d }
    ensures filters { (pairs : List (List ℕ × List ℕ)) (fs gs : List FilterText)
        → AreFilters pairs fs → AreFilters pairs gs → fs ≡ gs }
{}
