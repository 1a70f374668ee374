ghost use Rattle.std.specs.Prelude.{◌≡◌, ◌∷◌, [], List, ℕ, All};
ghost use Rattle.lk_csv.specs.Records.{HasAField, HasNoMark, record_text, records_of, records_text};

/// A record that was written is read back, unless its first field begins with a byte order mark.
/// So are many, one after the other, if each has a field and their text begins with no such mark.
pub fn written_records_read_back()
    ensures one { (field : List ℕ) (others : List (List ℕ)) → HasNoMark field
        → records_of (record_text (field ∷ others)) ≡ (field ∷ others) ∷ [] }
    ensures many { (rows : List (List (List ℕ))) → All HasAField rows
        → HasNoMark (records_text rows) → records_of (records_text rows) ≡ rows }
{}
