/// How a session ends.
#[derive(Clone, Copy, PartialEq, Eq)]
pub enum Ended {
    /// The input ended at a border of requests, or the last request asked to close.
    Clean,
    /// The input ended inside a request.
    Truncated,
    /// The last item was no request that can be read (H1, H2, H3, H6).
    BadHead,
    /// 100,000 replies were written.
    Spent,
    /// The link could not be read; its count of failed pulls rose.
    ReadFault,
    /// The link could not be written; its count of failed puts rose.
    WriteFault,
    /// There is no memory for the connection's own buffer.
    NoMemory,
}
