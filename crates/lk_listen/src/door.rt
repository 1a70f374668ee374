ghost use Rattle.std.specs.Prelude.{◌≡◌, ℕ, Bool, true, IfNone, IfOk, IfSome, OnErr};
ghost use Rattle.lk_io.specs.Causes.{HasCause};

use lk_io::{Failed, Link};

/// Where connections come from. It tells whether a call has answered that there are no more. (lookd)
pub trait Door: Send {
    /// A connection.
    type L: Link + Send + Drop;

    /// How many calls failed.
    ghost faults: { Self → ℕ };

    /// Whether a call has answered that there are no more.
    ghost ended: { Self → Bool };

    /// The next connection, or `None` where there are no more. It may wait for one, as long as none comes.
    fn next(&mut self) -> Result<Option<Self::L>, Failed>
        ensures ended { IfOk result (λ next. IfNone next (ended self.new ≡ true)) }
        ensures stays { ended self.old ≡ true → ended self.new ≡ true }
        ensures link { IfOk result (λ next. IfSome next (λ _. ended self.new ≡ ended self.old)) }
        ensures err { OnErr result (ended self.new ≡ ended self.old) }
        ensures cause { HasCause (faults self.old) (faults self.new) result };
}
