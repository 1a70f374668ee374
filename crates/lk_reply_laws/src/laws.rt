ghost use Rattle.std.specs.Prelude.{◌≡◌, ℕ, ℤ, Bool, List, Result};
ghost use Rattle.lk_types.specs.declared.answer.Reply.{Reply};
ghost use Rattle.lk_ask.specs.declared.fault.AskFault.{AskFault};
ghost use Rattle.lk_state.specs.States.{State};
ghost use Rattle.lk_edition.specs.Standings.{Standing};
ghost use Rattle.lk_answer.specs.Replies.{IsReplied};
ghost use Rattle.lk_reply_laws.specs.Agree.{Agree};

use lk_ask::rows_depend_on_no_moment;
use lk_placed_laws::callers_are_routed_alike;
use lk_query::bound_bodies_are_determined;

/// Two callers of one body who see the same rows get the same reply, status, body and refusal, however different the rows that
/// neither sees: over one history, or over two with the same numbers. A law: it computes nothing. (lookd)
pub fn replies_are_isolated()
    ensures { (e f : Standing) (past later : List State) (user other explore body : List ℕ) (now : ℤ) (csv : Bool) (r s : Result Reply AskFault)
        → Agree e past user f later other explore body now
        → IsReplied e past user explore body now csv r → IsReplied f later other explore body now csv s → r ≡ s }
{
    bound_bodies_are_determined();
    callers_are_routed_alike();
    rows_depend_on_no_moment();
}
