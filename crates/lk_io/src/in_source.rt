ghost use Rattle.std.specs.Prelude.{◌≡◌, ◌<◌, ◌≤◌, IfOk, length, is_err, if◌then◌else◌};
ghost use Rattle.std.specs.Io.KnownBytes.{ReadConsumes};
ghost use Rattle.lk_io.specs.Causes.{HasCause, next_count};
ghost use Rattle.lk_io.specs.System.{reader_of, read_faults};

use crate::faults::Failed;
use crate::source::Source;
use std::io;
use std::io::{ErrorKind, Read};

/// A reader of the standard library as a source. It tells what the reader tells.
#[derive(Drop)]
pub struct InSource<R> {
    reader: R,
    faults: u64,
}

impl<R> InSource<R> {
    /// The reader as a source.
    pub fn new(reader: R) -> InSource<R>
        ensures reader { reader_of result ≡ reader }
        ensures faults { read_faults result ≡ 0 }
    {
        InSource { reader, faults: 0 }
    }

    /// How many calls failed.
    pub fn faults(&self) -> u64
        ensures { result ≡ read_faults self.now }
    {
        self.faults
    }
}

// One read, tried again where a signal cut it off.
fn read_once<R: Read>(reader: &mut R, into: &mut [u8]) -> io::Result<usize>
    ensures bound { IfOk result (λ count. count ≤ length into.new) }
    ensures bytes { ReadConsumes (R.remaining reader.old) (R.remaining reader.new) result into.new }
{
    for _ in 0..u64::MAX {
        match reader.read(into) {
            Err(error) if error.kind() == ErrorKind::Interrupted => {}
            answer => return answer,
        }
    }
    // A loop must be seen to end, so this one stops after 2^64 - 1 turns, more than signals take.
    Err(io::Error::from(ErrorKind::Interrupted))
}

impl<R: Read + Send> Source for InSource<R> {
    ghost left = { λ source. R.remaining (reader_of source) };

    ghost faults = { λ source. read_faults source };

    fn pull(&mut self, into: &mut [u8]) -> Result<usize, Failed>
        requires { 0 < length into.old }
        ensures bound { IfOk result (λ count. count ≤ length into.new) }
        ensures bytes { ReadConsumes (R.remaining (reader_of self.old))
            (R.remaining (reader_of self.new)) result into.new }
        ensures cause { HasCause (read_faults self.old) (read_faults self.new) result }

        ensures counted { read_faults self.new ≡
            (if is_err result then next_count (read_faults self.old) else read_faults self.old) }
    {
        match read_once(&mut self.reader, into) {
            Ok(count) => Ok(count),
            Err(_) => {
                self.faults = self.faults.saturating_add(1);
                Err(Failed)
            }
        }
    }
}
