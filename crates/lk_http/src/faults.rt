ghost use Rattle.std.specs.Prelude.{◌≡◌};

use lk_val::NoMemory;
use std::alloc::AllocError;
use thiserror::Error;

/// Why a request was not read. After H1, H2, H3, H6, `Truncated` and `ReadFault` nothing more can be read
/// from the connection.
#[derive(Clone, Copy, Debug, PartialEq, Eq, Error)]
pub enum HttpFault {
    /// The bytes are no request head, or a `Content-Length` is not 1 to 10 digits, or two of them differ (H1).
    #[error("the request head cannot be read")]
    H1,
    /// A POST has no `Content-Length`, or a request has `Transfer-Encoding` (H2).
    #[error("the request states no length")]
    H2,
    /// The stated length is over 16,777,216 (H3).
    #[error("a body of {0} bytes is too large")]
    H3(u64),
    /// The target has no route (H4), and whether the request asked to close.
    #[error("the target has no route")]
    H4(bool),
    /// The route's method is POST (H5), and whether the request asked to close.
    #[error("the method is not POST")]
    H5(bool),
    /// The head has 16,384 bytes without an end, or a 65th field (H6).
    #[error("the request head is too large")]
    H6,
    /// The input ended inside a request.
    #[error("the input ends inside a request")]
    Truncated,
    /// The link could not be read; the count of its reads that failed rose.
    #[error("could not read the request")]
    ReadFault,
    /// An allocation was refused. The request was read and dropped.
    #[error("out of memory")]
    NoMemory,
}

impl From<NoMemory> for HttpFault {
    ghost use Rattle.lk_http.specs.declared.faults.HttpFault.{HttpFault};

    ghost from_gives = { λ _ fault. fault ≡ HttpFault.NoMemory };

    fn from(_: NoMemory) -> HttpFault {
        HttpFault::NoMemory
    }
}

impl From<AllocError> for HttpFault {
    ghost use Rattle.lk_http.specs.declared.faults.HttpFault.{HttpFault};

    ghost from_gives = { λ _ fault. fault ≡ HttpFault.NoMemory };

    fn from(_: AllocError) -> HttpFault {
        HttpFault::NoMemory
    }
}
