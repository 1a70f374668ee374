ghost use Rattle.std.specs.Prelude.{◌≡◌, ◌<◌, ◌≤◌, IfOk, OnOk, OnErr, length};
ghost use Rattle.std.specs.Io.KnownBytes.{Appends, ReadConsumes};
ghost use Rattle.std.proofs.Common.{ap};
ghost use Rattle.lk_io.specs.Causes.{HasCause};
ghost use Rattle.lk_io.specs.Links.{pair_source, pair_sink};
ghost use Rattle.lk_io.specs.Streams.{AppendsFront};

use crate::faults::Failed;
use crate::link::Link;
use crate::sink::Sink;
use crate::source::Source;

/// A source and a sink as a link.
#[derive(Drop)]
pub struct Pair<I, O> {
    source: I,
    sink: O,
}

impl<I, O> Pair<I, O> {
    /// The link that pulls from the source and puts to the sink.
    pub fn new(source: I, sink: O) -> Pair<I, O>
        ensures source { pair_source result ≡ source }
        ensures sink { pair_sink result ≡ sink }
    {
        Pair { source, sink }
    }

    /// The source and the sink.
    pub fn into_parts(self) -> (I, O)
        ensures { result ≡ (pair_source self, pair_sink self) }
    {
        let Pair { source, sink } = self;
        (source, sink)
    }
}

impl<I: Source, O: Send> Source for Pair<I, O> {
    ghost left = { λ pair. I.left (pair_source pair) };

    ghost faults = { λ pair. I.faults (pair_source pair) };

    ghost keeps_at_pull = { λ old new. pair_sink new ≡ pair_sink old };

    fn pull(&mut self, into: &mut [u8]) -> Result<usize, Failed>
        requires { 0 < length into.old }
        ensures bound { IfOk result (λ count. count ≤ length into.new) }
        ensures bytes { ReadConsumes (I.left (pair_source self.old)) (I.left (pair_source self.new))
            result into.new }
        ensures cause { HasCause (I.faults (pair_source self.old)) (I.faults (pair_source self.new)) result }
        ensures same { pair_sink self.new ≡ pair_sink self.old }
    {
        self.source.pull(into)
    }
}

impl<I: Send, O: Sink> Sink for Pair<I, O> {
    ghost held = { λ pair. O.held (pair_sink pair) };

    ghost faults = { λ pair. O.faults (pair_sink pair) };

    ghost keeps_at_put = { λ old new. pair_source new ≡ pair_source old };

    fn put(&mut self, bytes: &[u8]) -> Result<(), Failed>
        ensures ok { OnOk result
            (Appends (O.held (pair_sink self.old)) (O.held (pair_sink self.new)) bytes.now) }
        ensures err { OnErr result (AppendsFront
            (O.held (pair_sink self.old)) (O.held (pair_sink self.new)) bytes.now) }
        ensures cause { HasCause (O.faults (pair_sink self.old)) (O.faults (pair_sink self.new)) result }
        ensures same { pair_source self.new ≡ pair_source self.old }
    {
        self.sink.put(bytes)
    }
}

impl<I: Source, O: Sink> Link for Pair<I, O> {
    ghost pull_keeps = { λ _ _ same. (ap O.held same, ap O.faults same) };

    ghost put_keeps = { λ _ _ same. (ap I.left same, ap I.faults same) };
}
