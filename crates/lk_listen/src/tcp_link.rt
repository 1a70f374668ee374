use lk_io::{InSource, OutSink, Pair};
use std::alloc::Global;
use std::io;
use std::io::BufReader;
use std::net::TcpStream;
use std::time::Duration;

/// How many seconds a read waits for the peer's next bytes before it fails. (lookd)
pub const READ_SECONDS: u64 = 60;

/// How many seconds a write waits for the peer to take bytes before it fails. (lookd)
pub const WRITE_SECONDS: u64 = 60;

/// A connection by TCP. It tells nothing of what it gives and takes, and may hold bytes that it has read
/// ahead.
pub type TcpLink = Pair<InSource<BufReader<TcpStream>>, OutSink<TcpStream>>;

// The stream as a link, of which each put goes out at once.
pub(crate) fn link_over(alloc: Global, stream: TcpStream) -> io::Result<TcpLink> {
    stream.set_nodelay(true)?;
    stream.set_read_timeout(Some(Duration::from_secs(READ_SECONDS)))?;
    stream.set_write_timeout(Some(Duration::from_secs(WRITE_SECONDS)))?;
    let sink = OutSink::new(stream.try_clone()?);
    let source = InSource::new(BufReader::new(alloc, stream)?);
    Ok(Pair::new(source, sink))
}
