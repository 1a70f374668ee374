ghost use Rattle.std.specs.Prelude.{◌≡◌, ◌+◌, ◌++◌, ℕ, List, [], length, map, true, None, Some, Ok};
ghost use Rattle.std.specs.List.{All, AllZip};
ghost use Rattle.lk_val.specs.Texts.{are_different};
ghost use Rattle.lk_types.specs.declared.schema.Schema.{Schema};
ghost use Rattle.lk_schema.specs.Schemas.{schema_of};
ghost use Rattle.lk_table.specs.BatchTexts.{HasNamedColumns};
ghost use Rattle.lk_ledger.specs.Saving.{Save, after_saves, id_of};
ghost use Rattle.lk_ledger.specs.declared.kept.Kept.{Kept};
ghost use Rattle.lk_ledger.specs.declared.kept.KeptId.{KeptId};
ghost use Rattle.lk_command_reply.specs.Replies.{load_reply};
ghost use Rattle.lk_state.specs.Openings.{opened};
ghost use Rattle.lk_state.specs.Tables.{table_named};
ghost use Rattle.lk_edition.specs.Loads.{is_loader, kept_load, load_planned};
ghost use Rattle.lk_edition.specs.Standings.{Standing};
ghost use Rattle.lk_edition.specs.declared.call.LoadCall.{LoadCall};
ghost use Rattle.lk_edition.specs.declared.plan.LoadPlan.TheVariants as plan;
ghost use Rattle.lk_kept.specs.Accepted.{AreAccepted, Step, commands_of, loads_of};

use lk_table::batch_texts_read_back;

/// A load whose id is kept, by a user who may load and into a table of the schema, gets the reply of the kept one, whatever
/// its batch is. A law: it computes nothing.
pub fn kept_loads_get_their_reply()
    ensures { (e : Standing) (call : LoadCall) (number : ℕ) (kept : KeptId) → is_loader e.users call.user ≡ true
        → table_named e.model.schema.tables call.table ≡ Some number → kept_load e.state.ids call.id ≡ Some kept
        → load_planned e call ≡ Ok (plan.Kept (load_reply kept.rows kept.number)) }
{}

/// Of loads and checks that are accepted one after the other, the loads have different ids, and none that was kept before. Each
/// load puts its id behind the others and is then found by it. Each load and each check raises the number by 1. The model and the
/// users stay. A law: it computes nothing.
pub fn ids_append_at_most_once()
    ensures new { (e : Standing) (steps : List Step) (saves : List Save) (last : Standing)
        → AreAccepted e steps saves last → All (λ call. kept_load e.state.ids call.id ≡ None) (loads_of steps) }
    ensures once { (e : Standing) (steps : List Step) (saves : List Save) (last : Standing)
        → AreAccepted e steps saves last → are_different (map (λ call. call.id) (loads_of steps)) ≡ true }
    ensures ids { (e : Standing) (steps : List Step) (saves : List Save) (last : Standing)
        → AreAccepted e steps saves last → last.state.ids ≡ e.state.ids ++ map id_of (commands_of saves) }
    ensures kept { (e : Standing) (steps : List Step) (saves : List Save) (last : Standing)
        → AreAccepted e steps saves last
        → AllZip (λ call command. kept_load last.state.ids call.id ≡ Some (id_of command)) (loads_of steps) (commands_of saves) }
    ensures number { (e : Standing) (steps : List Step) (saves : List Save) (last : Standing)
        → AreAccepted e steps saves last → last.state.number ≡ e.state.number + length steps }
    ensures same { (e : Standing) (steps : List Step) (saves : List Save) (last : Standing)
        → AreAccepted e steps saves last → (last.model ≡ e.model) × (last.users ≡ e.users) }
{}

/// A server whose state is what opens without seeds from what its store holds, and that then accepted loads and checks, each of
/// which its store saved, has the state that opens from what the store then holds. The columns of each table have different names,
/// as in each schema that reads. A law: it computes nothing.
pub fn stores_hold_the_last_state()
    ensures { (kept : Kept) (e : Standing) (steps : List Step) (saves : List Save) (last : Standing)
        → All HasNamedColumns e.model.schema.tables → opened e.model.schema.tables kept [] ≡ Ok e.state
        → AreAccepted e steps saves last
        → opened e.model.schema.tables (after_saves kept saves) [] ≡ Ok last.state }
{
    batch_texts_read_back();
}

/// Each table of a schema that reads has columns, of which no two have one name. A law: it computes nothing.
pub fn schemas_name_their_columns()
    ensures { (text : List ℕ) (schema : Schema) → schema_of text ≡ Ok schema → All HasNamedColumns schema.tables }
{}
