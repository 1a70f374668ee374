ghost use Rattle.std.specs.Prelude.{◌≡◌, ◌≤◌, ℕ, OnOk, OnErr, IfOk, length, take, is_err, if◌then◌else◌};
ghost use Rattle.std.specs.Io.KnownBytes.{Appends, WriteAppends};
ghost use Rattle.lk_io.specs.Causes.{HasCause, next_count};
ghost use Rattle.lk_io.specs.Streams.{AppendsFront};
ghost use Rattle.lk_io.specs.System.{writer_of, write_faults};

use crate::faults::Failed;
use crate::sink::Sink;
use std::io;
use std::io::{ErrorKind, Write};

/// A writer of the standard library as a sink. It tells what the writer tells. Each put ends with a flush.
#[derive(Drop)]
pub struct OutSink<W> {
    writer: W,
    faults: u64,
}

impl<W> OutSink<W> {
    /// The writer as a sink.
    pub fn new(writer: W) -> OutSink<W>
        ensures writer { writer_of result ≡ writer }
        ensures faults { write_faults result ≡ 0 }
    {
        OutSink { writer, faults: 0 }
    }

    /// How many calls failed.
    pub fn faults(&self) -> u64
        ensures { result ≡ write_faults self.now }
    {
        self.faults
    }

    /// The writer, with all that was put.
    pub fn into_writer(self) -> W
        ensures { result ≡ writer_of self }
    {
        let OutSink { writer, faults: _ } = self;
        writer
    }
}

// One write, tried again where a signal cut it off.
fn write_once<W: Write>(writer: &mut W, bytes: &[u8]) -> io::Result<usize>
    ensures bound { IfOk result (λ count. count ≤ length bytes.now) }
    ensures bytes { WriteAppends (W.contents writer.old) (W.contents writer.new) result bytes.now }
{
    for _ in 0..u64::MAX {
        match writer.write(bytes) {
            Err(error) if error.kind() == ErrorKind::Interrupted => {}
            answer => return answer,
        }
    }
    // A loop must be seen to end, so this one stops after 2^64 - 1 turns, more than signals take.
    Err(io::Error::from(ErrorKind::Interrupted))
}

// Writes all bytes, and after an error a front of them. A write that takes none is an error.
fn write_whole<W: Write>(writer: &mut W, bytes: &[u8]) -> io::Result<()>
    ensures ok { OnOk result (Appends (W.contents writer.old) (W.contents writer.new) bytes.now) }
    ensures err { OnErr result
        (AppendsFront (W.contents writer.old) (W.contents writer.new) bytes.now) }
{
    let mut done = 0;
    while done < bytes.len() {
        let count = write_once(writer, &bytes[done..])?;
        if count == 0 {
            return Err(io::Error::from(ErrorKind::WriteZero));
        }
        done += count;
    }
    Ok(())
}

// Writes all bytes and flushes, so that no buffer keeps them.
fn send<W: Write>(writer: &mut W, bytes: &[u8]) -> io::Result<()>
    ensures ok { OnOk result (Appends (W.contents writer.old) (W.contents writer.new) bytes.now) }
    ensures err { OnErr result
        (AppendsFront (W.contents writer.old) (W.contents writer.new) bytes.now) }
{
    write_whole(writer, bytes)?;
    writer.flush()?;
    Ok(())
}

impl<W: Write + Send> Sink for OutSink<W> {
    ghost held = { λ sink. W.contents (writer_of sink) };

    ghost faults = { λ sink. write_faults sink };

    fn put(&mut self, bytes: &[u8]) -> Result<(), Failed>
        ensures ok { OnOk result
            (Appends (W.contents (writer_of self.old)) (W.contents (writer_of self.new)) bytes.now) }
        ensures err { OnErr result (AppendsFront
            (W.contents (writer_of self.old)) (W.contents (writer_of self.new)) bytes.now) }
        ensures cause { HasCause (write_faults self.old) (write_faults self.new) result }

        ensures counted { write_faults self.new ≡
            (if is_err result then next_count (write_faults self.old) else write_faults self.old) }
    {
        match send(&mut self.writer, bytes) {
            Ok(()) => Ok(()),
            Err(_) => {
                self.faults = self.faults.saturating_add(1);
                Err(Failed)
            }
        }
    }
}
