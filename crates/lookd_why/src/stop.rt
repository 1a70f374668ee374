ghost use Rattle.std.specs.Prelude.{◌≡◌};
ghost use Rattle.lookd_why.specs.Stops.{stop_code};

use lk_val::NoMemory;

/// Why a run stopped before it had a reply.
#[derive(Clone, Copy, PartialEq, Eq)]
pub enum Stop {
    /// The input could not be read.
    Input,
    /// The files could not be read.
    Files,
    /// Want of memory.
    Memory,
}

impl Stop {
    /// The status of the process.
    pub fn code(self) -> u8
        ensures { result ≡ stop_code self }
    {
        match self {
            Stop::Input => 3,
            Stop::Memory => 6,
            Stop::Files => 7,
        }
    }
}

impl From<NoMemory> for Stop {
    ghost use Rattle.lookd_why.specs.declared.stop.Stop.{Stop};

    ghost from_gives = { λ _ stop. stop ≡ Stop.Memory };

    fn from(_: NoMemory) -> Stop {
        Stop::Memory
    }
}
