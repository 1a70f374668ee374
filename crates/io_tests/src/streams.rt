use lk_io::{Failed, InSource, OutSink, Sink, Source};
use std::io;
use std::io::{BufWriter, ErrorKind, Read, Write};
use std::test::Fail;

// A reader whose first read a signal cuts off, and whose third fails.
#[derive(Drop)]
struct Flaky(u8);

impl Read for Flaky {
    fn read(&mut self, into: &mut [u8]) -> io::Result<usize> {
        self.0 = self.0.saturating_add(1);
        match (self.0, into) {
            (1, _) => Err(io::Error::from(ErrorKind::Interrupted)),
            (3, _) => Err(io::Error::from(ErrorKind::Other)),
            (_, [first, ..]) => {
                *first = self.0;
                Ok(1)
            }
            (_, []) => Ok(0),
        }
    }
}

#[test]
fn gives_the_bytes_of_a_slice_to_its_end(rt: HostRuntime) {
    let mut source = InSource::new(b"model".as_slice());
    let mut piece = [0; 3];
    assert_eq!(rt; source.pull(&mut piece), Ok(3));
    assert_eq!(rt; piece.as_slice(), b"mod".as_slice());
    assert_eq!(rt; source.pull(&mut piece), Ok(2));
    assert_eq!(rt; piece.as_slice(), b"eld".as_slice());
    assert_eq!(rt; source.pull(&mut piece), Ok(0));
    assert_eq!(rt; source.faults(), 0);
}

#[test]
fn a_failed_read_is_no_end_and_a_read_cut_off_is_tried_again(rt: HostRuntime) {
    let mut source = InSource::new(Flaky(0));
    let mut piece = [0; 3];
    assert_eq!(rt; source.pull(&mut piece), Ok(1));
    assert_eq!(rt; piece[0], 2);
    assert_eq!(rt; source.pull(&mut piece), Err(Failed));
    assert_eq!(rt; source.pull(&mut piece), Ok(1));
    assert_eq!(rt; piece[0], 4);
    assert_eq!(rt; source.faults(), 1);
}

// A writer that takes two bytes at a time, and none once it has five.
#[derive(Drop)]
struct Narrow {
    taken: Vec<u8>,
}

impl Write for Narrow {
    fn write(&mut self, bytes: &[u8]) -> io::Result<usize> {
        let free = 5usize
            .saturating_sub(self.taken.len())
            .min(2)
            .min(bytes.len());
        self.taken.extend_from_slice(&bytes[..free])?;
        Ok(free)
    }

    fn flush(&mut self) -> io::Result<()> {
        Ok(())
    }
}

#[test]
fn leaves_nothing_in_a_buffer(rt: HostRuntime) -> Result<(), Fail> {
    let writer = BufWriter::new(rt.alloc(), Vec::new(rt.alloc()))?;
    let mut sink = OutSink::new(writer);
    assert_eq!(rt; sink.put(b"users"), Ok(()));
    assert_eq!(rt; sink.put(b".csv"), Ok(()));
    assert_eq!(rt; sink.faults(), 0);
    assert_eq!(rt;
        sink.into_writer().get_ref().as_slice(),
        b"users.csv".as_slice()
    );
    Ok(())
}

#[test]
fn writes_on_after_a_short_write_and_fails_where_none_is_taken(rt: HostRuntime) {
    let taken = Vec::new(rt.alloc());
    let mut sink = OutSink::new(Narrow { taken });
    assert_eq!(rt; sink.put(b"user"), Ok(()));
    assert_eq!(rt; sink.put(b"s.csv"), Err(Failed));
    assert_eq!(rt; sink.faults(), 1);
    assert_eq!(rt; sink.into_writer().taken.as_slice(), b"users".as_slice());
}
