// Cells that read and cells that do not, computed by the definitions.

ghost use Rattle.std.specs.Prelude.{◌≡◌, [], codes, neg_ℤ, pos, Some, None, true, false};
ghost use Rattle.lk_types.specs.declared.schema.Kind.TheVariants as kind;
ghost use Rattle.lk_val.specs.declared.value.Value.TheVariants as value;
ghost use Rattle.lk_cell.specs.CellValues.{cell_value};

/// What some cells read as. A law: it computes nothing.
#[tactic(auto, unfolding(crate::specs::Days::day_of, crate::specs::Moments::second_behind, crate::specs::Moments::moment_cell, lk_val::specs::Numbers::num_of))]
pub fn cells_read_by_their_kind()
    ensures empty { cell_value kind.Day [] ≡ Some value.Null }

    ensures leap_day { cell_value kind.Day (codes "2024-02-29") ≡ Some (value.Day (pos 19782)) }
    ensures no_leap_year { cell_value kind.Day (codes "2023-02-29") ≡ None }
    ensures century { cell_value kind.Day (codes "1900-02-29") ≡ None }
    ensures past_the_month { cell_value kind.Day (codes "2024-02-30") ≡ None }
    ensures first_day { cell_value kind.Day (codes "0001-01-01") ≡ Some (value.Day (neg_ℤ (pos 719162))) }
    ensures last_day { cell_value kind.Day (codes "9999-12-31") ≡ Some (value.Day (pos 2932896)) }
    ensures no_year { cell_value kind.Day (codes "0000-12-31") ≡ None }
    ensures no_clock { cell_value kind.Day (codes "2024-02-29 12:00:00") ≡ None }

    ensures midnight { cell_value kind.Moment (codes "2024-02-29") ≡ Some (value.Moment (pos 1709164800)) }
    ensures noon { cell_value kind.Moment (codes "2024-02-29T12:00:00.25 UTC") ≡ Some (value.Moment (pos 1709208000)) }
    ensures zone_alone { cell_value kind.Moment (codes "2024-01-01Z") ≡ Some (value.Moment (pos 1704067200)) }
    ensures fraction_alone { cell_value kind.Moment (codes "2024-01-01.5") ≡ Some (value.Moment (pos 1704067200)) }
    ensures no_digit { cell_value kind.Moment (codes "2024-01-01.") ≡ None }
    ensures past_the_day { cell_value kind.Moment (codes "2024-02-29 24:00:00") ≡ None }
    ensures past_the_minute { cell_value kind.Moment (codes "2024-02-29 23:59:60") ≡ None }

    ensures yes { cell_value kind.Truth (codes "Yes") ≡ Some (value.Truth true) }
    ensures no { cell_value kind.Truth (codes "FALSE") ≡ Some (value.Truth false) }
    ensures letter { cell_value kind.Truth (codes "y") ≡ None }

    ensures number { cell_value kind.Number (codes "-1.50000") ≡ Some (value.Num (record { 0 = neg_ℤ (pos 15000) })) }
    ensures too_fine { cell_value kind.Number (codes "1.00001") ≡ None }
{}
