ghost use Rattle.std.specs.Prelude.{◌≡◌};

use crate::sink::Sink;
use crate::source::Source;

/// A connection: what comes in and what goes out are told and counted apart.
pub trait Link: Source + Sink {
    /// A pull leaves what went out, and the puts that failed.
    ghost pull_keeps: { (old new : Self) → Self.keeps_at_pull old new →
        (Self.held new ≡ Self.held old) × (Self.Sink.faults new ≡ Self.Sink.faults old) };

    /// A put leaves what is left to come in, and the pulls that failed.
    ghost put_keeps: { (old new : Self) → Self.keeps_at_put old new →
        (Self.left new ≡ Self.left old) × (Self.Source.faults new ≡ Self.Source.faults old) };
}
