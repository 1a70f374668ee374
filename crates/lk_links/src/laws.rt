ghost use Rattle.std.specs.Prelude.{◌≤◌, ◌+◌, ◌-◌, ◌^◌, min, ℕ, List};
ghost use Rattle.lk_turns.specs.Doings.{ItemDoes, Sent};
ghost use Rattle.lk_turns.specs.Runs.{IsRun, failures};
ghost use Rattle.lk_turns.specs.declared.ended.Ended.{Ended};
ghost use Rattle.lk_live.specs.Lives.{Forgets, Serves};
ghost use Rattle.lk_live.specs.declared.live.Live.{Live};

/// At most as many replies of a connection to live readers say that the store failed (503) as the count of loads and checks that could
/// not be saved rose during it, where 64 bits hold it. A law on what `serve_link` answers; it computes nothing.
pub fn unsaved_requests_are_counted()
    ensures { (s last : Live) (bytes rest : List ℕ) (sents : List Sent) (how : Ended) → IsRun (ItemDoes Serves Forgets) s bytes sents last rest how
        → min (s.failed + failures sents) (2 ^ 64 - 1) ≤ last.failed }
{}
