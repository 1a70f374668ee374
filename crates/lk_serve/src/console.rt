use lk_io::{Failed, Link, Sink, Source};

/// A run's input and output, as a link.
#[derive(Drop)]
pub struct Console<'a, I, O> {
    pub input: &'a mut I,
    pub out: &'a mut O,
}

impl<I: Source, O: Sink> Source for Console<'_, I, O> {
    ghost use Rattle.lk_serve.specs.Consoles.{KeepsAtPull};

    ghost left = { λ console. I.left console.input.now };

    ghost faults = { λ console. I.faults console.input.now };

    ghost keeps_at_pull = { λ old new. KeepsAtPull old new };

    fn pull(&mut self, into: &mut [u8]) -> Result<usize, Failed> {
        self.input.pull(into)
    }
}

impl<I: Source, O: Sink> Sink for Console<'_, I, O> {
    ghost use Rattle.lk_serve.specs.Consoles.{KeepsAtPut};

    ghost held = { λ console. O.held console.out.now };

    ghost faults = { λ console. O.faults console.out.now };

    ghost keeps_at_put = { λ old new. KeepsAtPut old new };

    fn put(&mut self, bytes: &[u8]) -> Result<(), Failed> {
        self.out.put(bytes)
    }
}

impl<I: Source, O: Sink> Link for Console<'_, I, O> {
    ghost use Rattle.std.proofs.Common.{ap};

    ghost pull_keeps = { λ _ _ keeps. (ap O.held keeps.out, ap O.faults keeps.out) };

    ghost put_keeps = { λ _ _ keeps. (ap I.left keeps.input, ap I.faults keeps.input) };
}
