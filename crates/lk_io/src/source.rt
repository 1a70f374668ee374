ghost use Rattle.std.specs.Prelude.{◌<◌, ◌≤◌, ℕ, List, Option, IfOk, length};
ghost use Rattle.std.specs.Io.KnownBytes.{ReadConsumes};
ghost use Rattle.lk_io.specs.Causes.{HasCause};

use crate::faults::Failed;

/// What comes into the server. An object may tell the bytes that it has left.
pub trait Source: Send {
    /// The bytes that are left, where the object tells.
    ghost left: { Self → Option (List ℕ) };

    /// How many calls failed.
    ghost faults: { Self → ℕ };

    /// What else of the object a pull leaves as it was, between its states before and after.
    ghost keeps_at_pull: { Self → Self → Type 0 } = { λ _ _. Unit {0} };

    /// Takes the next bytes, at most the buffer's length; 0 says that the input has ended. A `Failed` takes
    /// none.
    fn pull(&mut self, into: &mut [u8]) -> Result<usize, Failed>
        requires { 0 < length into.old }
        ensures bound { IfOk result (λ count. count ≤ length into.new) }
        ensures bytes { ReadConsumes (left self.old) (left self.new) result into.new }
        ensures cause { HasCause (faults self.old) (faults self.new) result }
        ensures same { keeps_at_pull self.old self.new };
}
