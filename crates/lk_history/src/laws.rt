ghost use Rattle.std.specs.Prelude.{◌≡◌, ℕ, List, [], IfSome, Ok, Some};
ghost use Rattle.std.specs.List.{All};
ghost use Rattle.lk_table.specs.BatchTexts.{HasNamedColumns};
ghost use Rattle.lk_ledger.specs.declared.kept.Kept.{Kept};
ghost use Rattle.lk_state.specs.Openings.{opened};
ghost use Rattle.lk_turns.specs.Doings.{Sent};
ghost use Rattle.lk_turns.specs.Runs.{IsRun};
ghost use Rattle.lk_turns.specs.declared.ended.Ended.{Ended};
ghost use Rattle.lk_session.specs.Recorded.{Recorded, RecordedDoes};
ghost use Rattle.lk_history.specs.Histories.{HasAccepted};

use lk_kept::stores_hold_the_last_state;

/// A session goes from the edition before it to the edition after it by loads and checks that are accepted one after the other, and
/// by nothing else; its store, where it tells, then holds what it held and these. So the ids of the loads are different, and none
/// was kept before. Where a server's state is what opens without seeds from what its store told, and the columns of each table have
/// different names, what opens from what it tells after the session is the state then. A law: it computes nothing.
pub fn sessions_accept_steps()
    ensures accepted { (h last : Recorded) (bytes rest : List ℕ) (sents : List Sent) (how : Ended)
        → IsRun RecordedDoes h bytes sents last rest how → HasAccepted h.server last.server }
    ensures opens_again { (h last : Recorded) (bytes rest : List ℕ) (sents : List Sent) (how : Ended) (kept : Kept)
        → IsRun RecordedDoes h bytes sents last rest how → h.server.store.held ≡ Some kept
        → All HasNamedColumns h.server.standing.model.schema.tables
        → opened h.server.standing.model.schema.tables kept [] ≡ Ok h.server.standing.state
        → IfSome last.server.store.held (λ held. opened h.server.standing.model.schema.tables held [] ≡ Ok last.server.standing.state) }
{
    stores_hold_the_last_state();
}
