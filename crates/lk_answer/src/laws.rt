ghost use Rattle.std.specs.Prelude.{◌≡◌, ℕ, ℤ, Bool, List, [], Result};
ghost use Rattle.lk_val.specs.Years.{IsMomentInYears};
ghost use Rattle.lk_types.specs.declared.answer.Reply.{Reply};
ghost use Rattle.lk_types.specs.declared.bound.Bound.{Bound};
ghost use Rattle.lk_ask.specs.declared.fault.AskFault.{AskFault};
ghost use Rattle.lk_state.specs.States.{State};
ghost use Rattle.lk_edition.specs.Histories.{Stands};
ghost use Rattle.lk_edition.specs.Standings.{Standing};
ghost use Rattle.lk_answer.specs.Answers.{IsAnswered};
ghost use Rattle.lk_answer.specs.Replies.{IsReplied};
ghost use Rattle.lk_answer.specs.Routes.{routed};

use lk_placed_laws::fitting_queries_depend_on_no_moment;
use lk_query::{bound_bodies_are_determined, bound_queries_are_in_their_model};
use lk_regroup_laws::answers_alike;

/// What a query is answered on an edition holds over the tables of one snapshot of the edition's history, the one that the reply
/// names, whether it comes of these tables or of what an aggregate table keeps of them. A law: it computes nothing. (lookd)
pub fn answers_are_of_one_snapshot()
    ensures { (e : Standing) (past : List State) (user explore body : List ℕ) (now : ℤ) (csv : Bool) (r : Result Reply AskFault)
        → Stands e past → IsMomentInYears now → IsAnswered e user explore body now csv r → IsReplied e past user explore body now csv r }
{
    bound_queries_are_in_their_model();
    answers_alike();
    fitting_queries_depend_on_no_moment();
}

/// On a history of one state each query's route names that state. A law: it computes nothing.
pub fn one_state_is_named()
    ensures { (e : Standing) (b : Bound) → Stands e [] → (routed e b).number ≡ e.state.number }
{}

/// A caller's body is replied one thing on a history. A law: it computes nothing.
pub fn bodies_are_replied_one_thing()
    ensures { (e : Standing) (past : List State) (user explore body : List ℕ) (now : ℤ) (csv : Bool) (r s : Result Reply AskFault)
        → IsReplied e past user explore body now csv r → IsReplied e past user explore body now csv s → r ≡ s }
{
    bound_bodies_are_determined();
}
