ghost use Rattle.std.specs.Prelude.{◌≡◌, ◌≤◌, ℕ, true, IfOk, OnErr};
ghost use Rattle.lk_http.specs.Replies.{is_status};

use lk_http::Request;
use lk_types::Reply;
use lk_val::NoMemory;

/// Who answers the requests of a connection. V is what is known of it between two replies: a type of which no value need be made.
/// (lookd)
pub trait Answerer<V> {
    ghost use Rattle.lk_http.specs.declared.request.Request.{Request};
    ghost use Rattle.lk_types.specs.declared.answer.Reply.{Reply};

    /// What is known of it.
    ghost state: { Self → V };

    /// What a request does: its reply, and what is known behind it.
    ghost serves: { V → Request → Reply → V → Type 0 };

    /// What may be known behind a request for which memory was refused.
    ghost forgets: { V → Request → V → Type 0 };

    /// How many calls failed of what it answers from.
    ghost faults: { Self → ℕ };

    /// What of the object each answer keeps, between its states before and after.
    ghost keeps: { Self → Self → Type 0 } = { λ _ _. Unit {0} };

    /// The reply to a request, with a status that `write_reply` of `lk_http` writes.
    fn answer(&mut self, request: Request) -> Result<Reply, NoMemory>
        ensures served { IfOk result (λ reply. serves (state self.old) request reply (state self.new)) }
        ensures forgot { OnErr result (forgets (state self.old) request (state self.new)) }
        ensures status { IfOk result (λ reply. is_status reply.status ≡ true) }
        ensures counts { faults self.old ≤ faults self.new }
        ensures same { keeps self.old self.new };

    /// A request that was dropped before it was answered changes nothing.
    ghost stays: { (s : V) (request : Request) → forgets s request s };
}
