ghost use Rattle.std.specs.Prelude.{◌≤◌, ◌+◌, ◌-◌, ◌^◌, min, ℕ, List};
ghost use Rattle.lk_turns.specs.Doings.{Sent};
ghost use Rattle.lk_turns.specs.Runs.{IsRun, failures};
ghost use Rattle.lk_turns.specs.declared.ended.Ended.{Ended};
ghost use Rattle.lk_session.specs.Recorded.{Recorded, RecordedDoes};

/// At most as many replies of a session say that the store failed (503) as calls of the store failed during it, where the store
/// can count them. A law: it computes nothing.
pub fn failed_saves_are_counted()
    ensures { (s last : Recorded) (bytes rest : List ℕ) (sents : List Sent) (how : Ended) → IsRun RecordedDoes s bytes sents last rest how
        → min (s.server.store.faults + failures sents) (2 ^ 64 - 1) ≤ last.server.store.faults }
{}
