ghost use Rattle.std.specs.Prelude.{◌≡◌, ℕ, Bool, List, Ok, [], true};
ghost use Rattle.lk_types.specs.Tables.{Rows, is_valid_table};
ghost use Rattle.lk_types.specs.declared.schema.TableDef.{TableDef};
ghost use Rattle.lk_table.specs.Contents.{content_of};
ghost use Rattle.lk_load.specs.Loading.{IsTable, LoadedTable, table_loaded};

/// What a table is stays one after a text is loaded into it, and the table without rows is one. A law: it computes nothing.
pub fn loads_keep_tables_valid()
    ensures loaded { (def : TableDef) (rows : Rows) (text : List ℕ) (replace : Bool) (t : LoadedTable) → is_valid_table def rows ≡ true
        → table_loaded def rows text replace ≡ Ok t → IsTable def t.version }
    ensures nothing { (def : TableDef) → IsTable def (content_of def []) }
{}
