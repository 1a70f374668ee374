ghost use Rattle.std.specs.Prelude.{ℕ, List, Option, OnOk, OnErr};
ghost use Rattle.std.specs.Io.KnownBytes.{Appends};
ghost use Rattle.lk_io.specs.Causes.{HasCause};
ghost use Rattle.lk_io.specs.Streams.{AppendsFront};

use crate::faults::Failed;

/// What goes out of the server. An object may tell the bytes that went out.
pub trait Sink: Send {
    /// The bytes that went out, where the object tells.
    ghost held: { Self → Option (List ℕ) };

    /// How many calls failed.
    ghost faults: { Self → ℕ };

    /// What else of the object a put leaves as it was, between its states before and after.
    ghost keeps_at_put: { Self → Self → Type 0 } = { λ _ _. Unit {0} };

    /// Writes all bytes; after a `Failed` a front of them went out.
    fn put(&mut self, bytes: &[u8]) -> Result<(), Failed>
        ensures ok { OnOk result (Appends (held self.old) (held self.new) bytes.now) }
        ensures err { OnErr result (AppendsFront (held self.old) (held self.new) bytes.now) }
        ensures cause { HasCause (faults self.old) (faults self.new) result }
        ensures same { keeps_at_put self.old self.new };
}
