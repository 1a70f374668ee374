ghost use Rattle.std.specs.Prelude.{◌≡◌, ℕ, Option, IfOk, IfSome, OnOk, OnErr};
ghost use Rattle.lk_ledger.specs.Causes.{HasKeepCause};
ghost use Rattle.lk_ledger.specs.Saving.{told_after, load, check};

use crate::command::Command;
use crate::faults::KeepFault;
use crate::kept::Kept;
use std::alloc::Global;

/// A store of loads, each saved before any reader sees it. An object may tell what it holds.
pub trait Keeper {
    ghost use Rattle.lk_ledger.specs.declared.kept.Kept.{Kept};

    /// What the store holds, where the object tells.
    ghost held: { Self → Option Kept };

    /// What the object may hand over, also where it does not tell.
    ghost handed: { Self → Kept → Type 0 };

    /// How many calls failed.
    ghost faults: { Self → ℕ };

    /// All that the store holds.
    fn load_all(&mut self, alloc: Global) -> Result<Kept, KeepFault>
        ensures kept { IfOk result (λ kept. IfSome (held self.old) (λ told. kept ≡ told)) }
        ensures handed { IfOk result (handed self.old) }
        ensures same { held self.new ≡ held self.old }
        ensures cause { HasKeepCause (faults self.old) (faults self.new) result };

    /// Saves an accepted load: its batch, its id and its number, all or nothing.
    fn save_load(&mut self, alloc: Global, command: &Command) -> Result<(), KeepFault>
        ensures ok { OnOk result (held self.new ≡ told_after (load command.now) (held self.old)) }
        ensures err { OnErr result (held self.new ≡ held self.old) }
        ensures cause { HasKeepCause (faults self.old) (faults self.new) result };

    /// Saves the number of a check that built something.
    fn save_check(&mut self, alloc: Global, number: u64) -> Result<(), KeepFault>
        ensures ok { OnOk result (held self.new ≡ told_after (check number) (held self.old)) }
        ensures err { OnErr result (held self.new ≡ held self.old) }
        ensures cause { HasKeepCause (faults self.old) (faults self.new) result };
}
