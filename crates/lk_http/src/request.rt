use lk_val::{Bytes, Text};

/// What a request asks for.
#[derive(Drop)]
pub enum Target {
    /// A query on the explore of this name.
    Query(Text),
    /// A load into the table of this name, whether the batch replaces its rows, and the load's id.
    Load(Text, bool, Text),
    /// A check of the datagroups.
    Check,
}

/// A request with a route of the server.
#[derive(Drop)]
pub struct Request {
    /// The caller's name; empty unless the head has exactly one `X-User`, which is UTF-8.
    pub user: Text,
    pub target: Target,
    pub body: Bytes,
    /// Whether it asks to close the connection: by `Connection: close`, or since it is of HTTP/1.0.
    pub close: bool,
}

/// What a connection gives next.
#[derive(Drop)]
pub enum Got {
    /// The input ended before a further request began.
    End,
    Req(Request),
}
