ghost use Rattle.std.specs.Prelude.{◌≡◌, ◌⊎◌, ℕ, List, Some};
ghost use Rattle.lk_io.specs.declared.files.File.{File};
ghost use Rattle.lk_types.specs.declared.answer.Reply.{Reply};
ghost use Rattle.lk_ledger.specs.Saving.{after_saves};
ghost use Rattle.lk_ledger.specs.declared.kept.Kept.{Kept};
ghost use Rattle.lk_ledger.specs.declared.kept.KeptId.{KeptId};
ghost use Rattle.lk_edition.specs.Loads.{kept_load};
ghost use Rattle.lk_edition.specs.Offices.{Begins};
ghost use Rattle.lk_http.specs.Items.{Item};
ghost use Rattle.lk_turns.specs.Doings.{Sent};
ghost use Rattle.lk_turns.specs.Runs.{AreTurns, IsRun};
ghost use Rattle.lk_turns.specs.declared.ended.Ended.{Ended};
ghost use Rattle.lk_session.specs.Recorded.{Recorded, RecordedDoes};
ghost use Rattle.lk_session.specs.Servers.{Server};
ghost use Rattle.lk_serve.specs.Scripts.{HasServed, Outside};
ghost use Rattle.lk_served_laws.specs.Ledgers.{DoesSo, Enters, KeepsLedger, Repeats, ledger_of};
ghost use Rattle.lk_served_laws.specs.Served.{HasNoData, IsSameState, WasServed};

use lk_history::sessions_accept_steps;
use lk_kept::{
    ids_append_at_most_once, kept_loads_get_their_reply, schemas_name_their_columns,
    stores_hold_the_last_state,
};
use lk_ledger::Keeper;
use lk_one_reply::words_have_one_reply;

/// A session keeps a ledger of the loads that it accepts: a load whose id is in it changes nothing and gets the reply that is kept
/// there, or that memory was refused; and nothing else happens to it than that an accepted load comes behind the others. So what
/// is in it stays in it, and is repeated in each turn behind. A law: it computes nothing.
pub fn sessions_keep_a_ledger()
    ensures ledger { (h last : Recorded) (bytes rest : List ℕ) (sents : List Sent) (how : Ended)
        → IsRun RecordedDoes h bytes sents last rest how → IsRun (DoesSo KeepsLedger) h bytes sents last rest how }
    ensures entered { (s t : Server) (item : Item) (reply : Reply) (enters : Enters s item reply t)
        → kept_load (ledger_of t) enters.load.id ≡ Some enters.load }
    ensures repeated { (id : List ℕ) (load : KeptId) (before : ℕ) (h last : Recorded) (bytes rest : List ℕ) (sents : List Sent)
        → kept_load (ledger_of h.server) id ≡ Some load → AreTurns RecordedDoes before h bytes sents last rest
        → AreTurns (DoesSo (Repeats id load)) before h bytes sents last rest × (kept_load (ledger_of last.server) id ≡ Some load) }
    ensures once { (id : List ℕ) (load : KeptId) (h last : Recorded) (bytes rest : List ℕ) (sents : List Sent) (how : Ended)
        → kept_load (ledger_of h.server) id ≡ Some load → IsRun RecordedDoes h bytes sents last rest how
        → IsRun (DoesSo (Repeats id load)) h bytes sents last rest how × (kept_load (ledger_of last.server) id ≡ Some load) }
{
    kept_loads_get_their_reply();
}

/// A run of `script` over files and an input that are told, and a store that tells what it holds: the server opened over that, and
/// the store then holds it and the loads and checks that were accepted, with the server's last number and its ledger, from which
/// the files without data files open the last state; or nothing was served, and the store holds what it held. A law: it computes
/// nothing.
pub fn scripts_keep_what_they_accept<K: Keeper>(store: &K)
    ensures { (files : List File) (kept : Kept) (bytes : List ℕ) (a b : Outside) (status : ℕ)
        → K.held store.now ≡ Some kept → a.kept ≡ Some kept → a.left ≡ Some bytes
        → HasServed (Some files) (Begins (K.held store.now) (K.handed store.now)) a b status
        → WasServed files kept bytes a b status ⊎ (b.kept ≡ Some kept) }
{
    sessions_keep_a_ledger();
    sessions_accept_steps();
    ids_append_at_most_once();
    stores_hold_the_last_state();
    schemas_name_their_columns();
    words_have_one_reply(store);
}

/// A run over the store that another one left begins with the ledger that this ended with, whatever the files are; so each load that
/// this had accepted or found in its store is repeated in it, with the same reply. Over the same files without data files it begins
/// with the same model, users and state. A law: it computes nothing.
pub fn next_scripts_go_on()
    ensures ledger { (files more : List File) (kept : Kept) (bytes inputs : List ℕ) (a b c d : Outside) (status next : ℕ)
        (one : WasServed files kept bytes a b status) (two : WasServed more (after_saves kept one.saves) inputs c d next)
        → two.e.state.ids ≡ one.last.state.ids }
    ensures once { (files more : List File) (kept : Kept) (bytes inputs : List ℕ) (a b c d : Outside) (status next : ℕ)
        (one : WasServed files kept bytes a b status) (two : WasServed more (after_saves kept one.saves) inputs c d next)
        (id : List ℕ) (load : KeptId)
        → kept_load one.last.state.ids id ≡ Some load
        → IsRun (DoesSo (Repeats id load)) two.session.from inputs two.session.sents two.session.to two.session.rest two.session.how }
    ensures state { (files : List File) (kept : Kept) (bytes inputs : List ℕ) (a b c d : Outside) (status next : ℕ)
        (one : WasServed files kept bytes a b status) (two : WasServed files (after_saves kept one.saves) inputs c d next)
        → HasNoData one.e.model.schema.tables files → IsSameState one.last two.e }
{
    sessions_keep_a_ledger();
}
