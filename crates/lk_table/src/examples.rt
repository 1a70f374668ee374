// Batches and loads, computed by the definitions.

ghost use Rattle.std.specs.Prelude.{◌≡◌, ◌∷◌, [], codes, pos, Ok, Err, true, false};
ghost use Rattle.lk_val.specs.declared.value.Value.TheVariants as value;
ghost use Rattle.lk_table.specs.Batches.{batch_from};
ghost use Rattle.lk_table.specs.Contents.{size_of};
ghost use Rattle.lk_table.specs.Loads.{loaded};
ghost use Rattle.lk_table.specs.Samples.{content, header, id_of, order, orders, row};
ghost use Rattle.lk_table.specs.declared.fault.BatchFault.TheVariants.{L3, L4, L5};

/// What some records hold for a table, and their first faults. A law: it computes nothing.
#[tactic(auto, unfolding(lk_val::specs::Numbers::num_of, lk_cell::specs::Days::day_of))]
pub fn batches_are_computed()
    ensures rows { batch_from orders (header ∷ order (codes "10") (codes "2024-02-29") ∷ order (codes "11") [] ∷ [])
        ≡ Ok (content ((id_of 10 ∷ value.Day (pos 19782) ∷ []) ∷ row 11 ∷ [])) }
    ensures other_order { batch_from orders ((codes "made" ∷ codes "id" ∷ []) ∷ order [] (codes "10") ∷ [])
        ≡ Ok (content (row 10 ∷ [])) }
    ensures not_named { batch_from orders ((codes "id" ∷ []) ∷ (codes "10" ∷ []) ∷ []) ≡ Ok (content (row 10 ∷ [])) }
    ensures header_alone { batch_from orders (header ∷ []) ≡ Ok (content []) }
    ensures nothing { batch_from orders [] ≡ Err (L3 0 []) }
    ensures third_row { batch_from orders (header ∷ order (codes "1") [] ∷ order (codes "2") []
        ∷ order (codes "3") (codes "2024-02-30") ∷ []) ≡ Err (L3 3 (codes "made")) }
    ensures named_twice { batch_from orders ((codes "id" ∷ codes "id" ∷ []) ∷ []) ≡ Err (L3 0 (codes "id")) }
    ensures short { batch_from orders (header ∷ (codes "1" ∷ []) ∷ []) ≡ Err (L3 1 []) }
    ensures null_key { batch_from orders (header ∷ order (codes "1") [] ∷ order [] [] ∷ []) ≡ Err (L5 2) }
    ensures cell_before_key { batch_from orders (header ∷ order [] [] ∷ order (codes "x") [] ∷ [])
        ≡ Err (L3 2 (codes "id")) }
    ensures key_left_out { batch_from orders ((codes "made" ∷ []) ∷ ([] ∷ []) ∷ []) ≡ Err (L5 1) }
{}

/// What some loads make of a table. A law: it computes nothing.
#[tactic(auto, unfolding(crate::specs::Contents::text_bytes))]
pub fn loads_are_computed()
    ensures appended { loaded (content (row 1 ∷ [])) (content (row 2 ∷ [])) false ≡ Ok (content (row 1 ∷ row 2 ∷ [])) }
    ensures replaced { loaded (content (row 1 ∷ [])) (content (row 2 ∷ [])) true ≡ Ok (content (row 2 ∷ [])) }
    ensures emptied { loaded (content (row 1 ∷ [])) (content []) true ≡ Ok (content []) }
    ensures twice { loaded (content []) (content (row 20 ∷ row 20 ∷ [])) false ≡ Err (L4 (id_of 20)) }
    ensures first_row { loaded (content []) (content (row 1 ∷ row 2 ∷ row 2 ∷ row 1 ∷ [])) false ≡ Err (L4 (id_of 1)) }
    ensures held_or_twice { loaded (content (row 9 ∷ [])) (content (row 5 ∷ row 9 ∷ row 5 ∷ [])) false
        ≡ Err (L4 (id_of 5)) }
    ensures held_and_replaced { loaded (content (row 9 ∷ [])) (content (row 5 ∷ row 9 ∷ [])) true
        ≡ Ok (content (row 5 ∷ row 9 ∷ [])) }
    ensures size { size_of (content (row 1 ∷ row 2 ∷ [])) ≡ record { cells = 4; text = 0 } }
{}
