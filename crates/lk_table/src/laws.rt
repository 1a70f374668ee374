ghost use Rattle.std.specs.Prelude.{◌≡◌, ℕ, List, Ok};
ghost use Rattle.lk_types.specs.declared.schema.TableDef.{TableDef};
ghost use Rattle.lk_table.specs.Batches.{batch_of};
ghost use Rattle.lk_table.specs.BatchTexts.{HasNamedColumns, batch_text};
ghost use Rattle.lk_table.specs.Contents.{Content};

/// Reading the canonical text of a batch gives the batch. A law: it computes nothing.
pub fn batch_texts_read_back()
    ensures { (def : TableDef) (text : List ℕ) (content : Content) → HasNamedColumns def
        → batch_of def text ≡ Ok content → batch_of def (batch_text def content) ≡ Ok content }
{}
