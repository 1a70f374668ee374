// Datagroups over the tables of the shop, computed by the definitions.

ghost use Rattle.std.specs.Prelude.{◌≡◌, ◌∷◌, [], None, Some, pos};
ghost use Rattle.lk_types.specs.Samples.{parts, units};
ghost use Rattle.lk_types.specs.declared.model.Trigger.TheVariants as trigger;
ghost use Rattle.lk_val.specs.declared.value.Value.TheVariants as value;
ghost use Rattle.lk_trigger.specs.Builds.{built_at, triggered, watched};
ghost use Rattle.lk_trigger.specs.Samples.{each_hour, later, opening, shop_tables, triggered_since, watching, watching_nothing, with_null_order, with_order, without_orders};

/// What is watched of the shop's orders: the greatest id, also beside one that is null, and of no rows; the number of rows; and
/// the day, at its last second and at the next. A law: it computes nothing.
#[tactic(auto, unfolding(lk_types::specs::Calendar::day_of_moment))]
pub fn values_are_watched()
    ensures greatest { watched shop_tables opening (trigger.Max 1 0) ≡ units 12 }
    ensures beside_null { watched with_null_order opening (trigger.Max 1 0) ≡ units 12 }
    ensures of_none { watched without_orders opening (trigger.Max 1 0) ≡ value.Null }
    ensures rows { watched with_null_order opening (trigger.Count 1) ≡ parts 4 }
    ensures no_rows { watched without_orders opening (trigger.Count 1) ≡ parts 0 }
    ensures day { watched shop_tables (later 86399) trigger.Today ≡ value.Day (pos 19784) }
    ensures next_day { watched shop_tables (later 86400) trigger.Today ≡ value.Day (pos 19785) }
{}

/// When the shop's datagroups trigger. One that watches the greatest id does once order 14 is loaded, and no more after the check
/// that builds it then; order 9 changes nothing of it. Over no orders it doesn't, and it does once there is one, or none is left.
/// An interval of an hour counts alone, from the last build. One that watches nothing never triggers. Several are told in order.
/// A law: it computes nothing.
#[tactic(auto, unfolding(lk_types::specs::Calendar::day_of_moment))]
pub fn datagroups_are_triggered()
    ensures before_load { triggered_since shop_tables (watching (trigger.Max 1 0) ∷ []) shop_tables (later 100) ≡ [] }
    ensures after_load { triggered_since shop_tables (watching (trigger.Max 1 0) ∷ []) (with_order 14) (later 100) ≡ 0 ∷ [] }
    ensures after_check { triggered (watching (trigger.Max 1 0) ∷ []) (with_order 14)
        (built_at (with_order 14) 2 (later 100) (watching (trigger.Max 1 0)) ∷ []) (later 200) ≡ [] }
    ensures lesser_id { triggered_since shop_tables (watching (trigger.Max 1 0) ∷ []) (with_order 9) (later 100) ≡ [] }
    ensures more_rows { triggered_since shop_tables (watching (trigger.Count 1) ∷ []) (with_order 9) (later 100) ≡ 0 ∷ [] }
    ensures no_rows { triggered_since without_orders (watching (trigger.Max 1 0) ∷ []) without_orders (later 100) ≡ [] }
    ensures first_row { triggered_since without_orders (watching (trigger.Max 1 0) ∷ []) shop_tables (later 100) ≡ 0 ∷ [] }
    ensures last_row { triggered_since shop_tables (watching (trigger.Max 1 0) ∷ []) without_orders (later 100) ≡ 0 ∷ [] }
    ensures same_day { triggered_since shop_tables (watching trigger.Today ∷ []) shop_tables (later 86399) ≡ [] }
    ensures next_day { triggered_since shop_tables (watching trigger.Today ∷ []) shop_tables (later 86400) ≡ 0 ∷ [] }
    ensures early { triggered_since shop_tables (each_hour None ∷ []) shop_tables (later 3599) ≡ [] }
    ensures in_time { triggered_since shop_tables (each_hour None ∷ []) shop_tables (later 3600) ≡ 0 ∷ [] }
    ensures interval_alone { triggered_since shop_tables (each_hour (Some (trigger.Max 1 0)) ∷ []) (with_order 14) (later 3599) ≡ [] }
    ensures unchanged { triggered_since shop_tables (each_hour (Some (trigger.Max 1 0)) ∷ []) shop_tables (later 3600) ≡ 0 ∷ [] }
    ensures nothing { triggered_since shop_tables (watching_nothing ∷ []) (with_order 14) (later 86400) ≡ [] }
    ensures several { triggered_since shop_tables
        (each_hour None ∷ watching (trigger.Count 1) ∷ watching_nothing ∷ watching (trigger.Max 1 0) ∷ [])
        (with_order 14) (later 100) ≡ 1 ∷ 3 ∷ [] }
{}
