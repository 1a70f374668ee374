ghost use Rattle.std.specs.Prelude.{◌≡◌};
ghost use Rattle.lk_serve.specs.Stops.{stop_code};

use lk_val::NoMemory;

/// Why a run stopped before it had a reply.
#[derive(Clone, Copy, PartialEq, Eq)]
pub enum Stop {
    /// The input's count of faults rose.
    Input,
    /// The store's count of faults rose at the opening.
    Store,
    /// The files' count of faults rose.
    Files,
    /// An allocation was refused.
    Memory,
}

impl Stop {
    /// The status of the process.
    pub fn code(self) -> u8
        ensures { result ≡ stop_code self }
    {
        match self {
            Stop::Input => 3,
            Stop::Store => 5,
            Stop::Memory => 6,
            Stop::Files => 7,
        }
    }
}

impl From<NoMemory> for Stop {
    ghost use Rattle.lk_serve.specs.declared.stops.Stop.{Stop};

    ghost from_gives = { λ _ stop. stop ≡ Stop.Memory };

    fn from(_: NoMemory) -> Stop {
        Stop::Memory
    }
}
