ghost use Rattle.std.specs.Prelude.{◌≡◌, ◌≤◌, OnOk, OnErr, length, take, true, sum_by, codes};
ghost use Rattle.std.specs.Io.KnownBytes.{Appends};
ghost use Rattle.std.specs.List.{flat_map};
ghost use Rattle.lk_io.specs.Causes.{HasCause};
ghost use Rattle.lk_io.specs.Streams.{AppendsFront};
ghost use Rattle.lk_http.specs.Replies.{allow_line, close_line, is_status, memory_reply, printed_head, printed_reply, reason_of, type_line};
ghost use Rattle.lk_http.specs.Ways.{Comes};

use arrayvec::ArrayVec;
use http::StatusCode;
use itoa::Buffer;
use lk_io::{Failed, Link};
use lk_types::Reply;

/// Writes a reply, and whether the connection closes after it. It takes no memory.
pub fn write_reply<L: Link>(link: &mut L, reply: &Reply, close: bool) -> Result<(), Failed>
    requires status { is_status reply.now.status ≡ true }
    ensures ok { OnOk result
        (Appends (L.held link.old) (L.held link.new) (printed_reply reply.now close)) }
    ensures err { OnErr result
        (AppendsFront (L.held link.old) (L.held link.new) (printed_reply reply.now close)) }
    ensures cause { HasCause (L.Sink.faults link.old) (L.Sink.faults link.new) result }
    ensures left { L.left link.new ≡ L.left link.old }
    ensures reads { L.Source.faults link.new ≡ L.Source.faults link.old }
    ensures puts { Comes L.Sink.keeps_at_put link.old link.new }
{
    write(link, reply.status, reply.csv, reply.body.as_slice(), close)
}

/// Writes the reply that an allocation was refused. It takes no memory.
pub fn write_memory<L: Link>(link: &mut L, close: bool) -> Result<(), Failed>
    ensures ok { OnOk result
        (Appends (L.held link.old) (L.held link.new) (printed_reply memory_reply close)) }
    ensures err { OnErr result
        (AppendsFront (L.held link.old) (L.held link.new) (printed_reply memory_reply close)) }
    ensures cause { HasCause (L.Sink.faults link.old) (L.Sink.faults link.new) result }
    ensures left { L.left link.new ≡ L.left link.old }
    ensures reads { L.Source.faults link.new ≡ L.Source.faults link.old }
    ensures puts { Comes L.Sink.keeps_at_put link.old link.new }
{
    write(link, 507, false, b"{\"error\":\"memory\"}", close)
}

// The room for a reply's head.
const HEAD_ROOM: usize = 256;

fn write<L: Link>(
    link: &mut L,
    status: u16,
    csv: bool,
    body: &[u8],
    close: bool,
) -> Result<(), Failed>
    requires status { is_status status ≡ true }
    ensures ok { OnOk result (Appends (L.held link.old) (L.held link.new)
        (printed_reply (record { status = status; csv = csv; body = body.now }) close)) }
    ensures err { OnErr result (AppendsFront (L.held link.old) (L.held link.new)
        (printed_reply (record { status = status; csv = csv; body = body.now }) close)) }
    ensures cause { HasCause (L.Sink.faults link.old) (L.Sink.faults link.new) result }
    ensures left { L.left link.new ≡ L.left link.old }
    ensures reads { L.Source.faults link.new ≡ L.Source.faults link.old }
    ensures puts { Comes L.Sink.keeps_at_put link.old link.new }
{
    let head = print_head(status, csv, body.len(), close);
    link.put(head.as_slice())?;
    link.put(body)
}

// The head of a reply with a body of so many bytes.
#[tactic(auto, using(crate::proofs::ReplyLemmas::reason_is_short), unfolding(crate::specs::Replies::printed_head))]
fn print_head(status: u16, csv: bool, count: usize, close: bool) -> ArrayVec<u8, HEAD_ROOM>
    requires { is_status status ≡ true }
    ensures { result.items ≡ printed_head status csv count close }
{
    let mut code = Buffer::new();
    let mut digits = Buffer::new();
    gather(&[
        b"HTTP/1.1 ",
        code.format(status).as_bytes(),
        b" ",
        reason_of(status).as_bytes(),
        b"\r\n",
        type_line(csv),
        b"Content-Length: ",
        digits.format(count).as_bytes(),
        b"\r\n",
        allow_line(status),
        close_line(close),
        b"\r\n",
    ])
}

// The pieces, one after the other.
fn gather(pieces: &[&[u8]]) -> ArrayVec<u8, HEAD_ROOM>
    requires { sum_by (λ piece. length piece.now) pieces.now ≤ 256 }
    ensures { result.items ≡ flat_map (λ piece. piece.now) pieces.now }
{
    let mut bytes = ArrayVec::new();
    for piece in pieces {
        let Ok(()) = bytes.try_extend_from_slice(piece) else {
            unreachable!()
        };
    }
    bytes
}

fn type_line(csv: bool) -> &'static [u8]
    ensures { result.now ≡ type_line csv }
{
    if csv {
        b"Content-Type: text/csv\r\n"
    } else {
        b"Content-Type: application/json\r\n"
    }
}

fn allow_line(status: u16) -> &'static [u8]
    ensures { result.now ≡ allow_line status }
{
    if status == 405 {
        b"Allow: POST\r\n"
    } else {
        b""
    }
}

fn close_line(close: bool) -> &'static [u8]
    ensures { result.now ≡ close_line close }
{
    if close { b"Connection: close\r\n" } else { b"" }
}

// The reason phrase of a reply's status.
#[tactic(auto, using(crate::proofs::ReplyLemmas::reason_is))]
fn reason_of(status: u16) -> &'static str
    requires { is_status status ≡ true }
    ensures { result.now ≡ reason_of status }
{
    let Ok(code) = StatusCode::from_u16(status) else {
        unreachable!()
    };
    let Some(reason) = code.canonical_reason() else {
        unreachable!()
    };
    reason
}
