ghost use Rattle.std.specs.Prelude.{◌≡◌, ◌≢◌, ℕ, ℤ, false, List, ◌++◌, Option, Some, Ok, Err, length, take};
ghost use Rattle.lk_state.specs.States.{State};
ghost use Rattle.lk_http.specs.Items.{IsNext, Item, Step};
ghost use Rattle.lk_http.specs.declared.faults.HttpFault.TheVariants.{Truncated};
ghost use Rattle.lk_http.specs.declared.request.Got.TheVariants.{End};
ghost use Rattle.lk_turns.specs.Doings.{Sent};
ghost use Rattle.lk_turns.specs.Runs.{IsRun};
ghost use Rattle.lk_turns.specs.declared.ended.Ended.{Ended};
ghost use Rattle.lk_session.specs.Recorded.{IsRecorded, Recorded, RecordedDoes, recorded};
ghost use Rattle.lk_session.specs.Servers.{Server};
ghost use Rattle.lk_one_session.specs.Outcomes.{AreUndisturbed, BeginWith, HaveSameReplies, IsFront, has_failure, is_broken_off, some_may_differ, uncounted};

use lk_answer::bodies_are_replied_one_thing;

/// Bytes have one next item, and one rest behind it (`one`). Where these bytes have it whole, whatever bytes come behind them don't
/// change it (`ahead`). A law: it computes nothing. (RFC 9112)
pub fn bytes_have_one_next_item()
    ensures one { (bytes : List ℕ) (x y : Step) → IsNext bytes x → IsNext bytes y → x ≡ y }
    ensures ahead { (bytes more rest : List ℕ) (item : Item) → item ≢ Ok End → item ≢ Err Truncated
        → IsNext bytes (item, rest) → IsNext (bytes ++ more) (item, rest ++ more) }
{}

/// Take two servers that are the same but for how many calls of their stores have failed, and whose clocks tell the moments to come.
/// Sessions of theirs have the same replies to the first items that their bytes have in common (`requests`), and to all over the same
/// bytes (`replies`), up to where memory was refused for one of them (507) or the store failed for one and not for the other (503).
/// Where there is no such place, one that was ended by its link, or for want of memory, has a front of the replies of one that was not
/// (`fronts`), and two that were not have the same replies, leave the same bytes and the same server, but for that count, and end
/// alike (`outcome`); they wrote the same (`written`).
/// Sessions without such replies have no such place (`unfailing`). A law: it computes nothing. (lookd)
pub fn sessions_have_one_outcome()
    ensures requests { (h k last end : Recorded) (told : List ℤ) (bytes other rest left : List ℕ) (sents others : List Sent) (how why : Ended)
        (items : List Item) → uncounted h ≡ uncounted k → h.server.moments ≡ Some told
        → IsRun RecordedDoes h bytes sents last rest how → IsRun RecordedDoes k other others end left why
        → BeginWith bytes items → BeginWith other items → HaveSameReplies (take (length items) sents) (take (length items) others) }
    ensures replies { (h k last end : Recorded) (told : List ℤ) (bytes rest left : List ℕ) (sents others : List Sent) (how why : Ended)
        → uncounted h ≡ uncounted k → h.server.moments ≡ Some told
        → IsRun RecordedDoes h bytes sents last rest how → IsRun RecordedDoes k bytes others end left why → HaveSameReplies sents others }
    ensures fronts { (h k last end : Recorded) (told : List ℤ) (bytes rest left : List ℕ) (sents others : List Sent) (how why : Ended)
        → uncounted h ≡ uncounted k → h.server.moments ≡ Some told
        → IsRun RecordedDoes h bytes sents last rest how → IsRun RecordedDoes k bytes others end left why
        → some_may_differ sents others ≡ false → is_broken_off why ≡ false → IsFront sents others }
    ensures outcome { (h k last end : Recorded) (told : List ℤ) (bytes rest left : List ℕ) (sents others : List Sent) (how why : Ended)
        → uncounted h ≡ uncounted k → h.server.moments ≡ Some told
        → IsRun RecordedDoes h bytes sents last rest how → IsRun RecordedDoes k bytes others end left why
        → AreUndisturbed sents others how why
        → (sents ≡ others) × (uncounted last ≡ uncounted end) × (rest ≡ left) × (how ≡ why) }
    ensures written { (s t s' t' : Server) (past : List State) (told : List ℤ) (bytes held : List ℕ) (a b rest left : Option (List ℕ)) (how why : Ended)
        → uncounted (recorded s past) ≡ uncounted (recorded t past) → s.moments ≡ Some told
        → (p : IsRecorded s past bytes (Some held) a s' rest how) (q : IsRecorded t past bytes (Some held) b t' left why)
        → AreUndisturbed p.session.sents q.session.sents how why
        → (a ≡ b) × (uncounted (recorded s' p.after) ≡ uncounted (recorded t' q.after)) × (rest ≡ left) × (how ≡ why) }
    ensures unfailing { (sents others : List Sent) → has_failure sents ≡ false → has_failure others ≡ false → some_may_differ sents others ≡ false }
{
    bodies_are_replied_one_thing();
}
