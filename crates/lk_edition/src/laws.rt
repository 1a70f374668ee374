ghost use Rattle.std.specs.Prelude.{◌≡◌, ◌∷◌, [], ℕ, ℤ, List, Ok};
ghost use Rattle.lk_types.specs.declared.model.Model.{Model};
ghost use Rattle.lk_semantics.specs.Resolved.{IsResolved};
ghost use Rattle.lk_schema.specs.declared.users.Users.{Users};
ghost use Rattle.lk_front.specs.Chains.{EndsIn, IsChain};
ghost use Rattle.lk_ledger.specs.declared.kept.Kept.{Kept};
ghost use Rattle.lk_state.specs.Openings.{AreSeeds, Seed};
ghost use Rattle.lk_state.specs.States.{State};
ghost use Rattle.lk_edition.specs.Checks.{check_planned};
ghost use Rattle.lk_edition.specs.Histories.{Stands};
ghost use Rattle.lk_edition.specs.Loads.{load_planned};
ghost use Rattle.lk_edition.specs.Openings.{standing_opened};
ghost use Rattle.lk_edition.specs.Plans.{Planned};
ghost use Rattle.lk_edition.specs.Standings.{Standing};
ghost use Rattle.lk_edition.specs.Versions.{Follows, Opens, past_of};
ghost use Rattle.lk_edition.specs.declared.call.LoadCall.{LoadCall};
ghost use Rattle.lk_edition.specs.declared.plan.CheckPlan.TheVariants as check_plan;
ghost use Rattle.lk_edition.specs.declared.plan.LoadPlan.TheVariants as load_plan;

use lk_keeps::what_is_built_anew_is_kept;
use lk_load::loads_keep_tables_valid;

/// The edition that a server opens with is that of a history of one state: each datagroup is built at it. A law: it computes
/// nothing.
pub fn openings_begin_a_history()
    ensures { (model : Model) (users : Users) (kept : Kept) (seeds : List Seed) (now : ℤ) (e : Standing)
        → IsResolved model → AreSeeds model.schema.tables seeds → standing_opened model users kept seeds now ≡ Ok e → Stands e [] }
{
    loads_keep_tables_valid();
}

/// After a load the edition is that of the history with one more state: what is kept stays, and is still what the tables of the
/// builds give. A law: it computes nothing.
pub fn loads_keep_the_history()
    ensures { (e : Standing) (past : List State) (call : LoadCall) (p : Planned)
        → Stands e past → load_planned e call ≡ Ok (load_plan.New p) → Stands p.standing (e.state ∷ past) }
{
    loads_keep_tables_valid();
}

/// After a check the edition is that of the history with one more state: what was built anew is what the new state's tables give,
/// and the rest stays. A law: it computes nothing.
pub fn checks_keep_the_history()
    ensures { (e : Standing) (past : List State) (user : List ℕ) (now : ℤ) (p : Planned)
        → Stands e past → check_planned e user now ≡ Ok (check_plan.New p) → Stands p.standing (e.state ∷ past) }
{
    what_is_built_anew_is_kept();
}

/// In a list of editions of which the first opened a server and each other one is the one before it once more, or that of a load or
/// a check on it, the last is that of the history in the list. A law: it computes nothing.
pub fn editions_in_a_list_stand()
    ensures { (list : List Standing) (e : Standing) → IsChain Opens Follows list → EndsIn list e → Stands e (past_of list) }
{
    loads_keep_the_history();
    checks_keep_the_history();
}
