ghost use Rattle.std.specs.Prelude.{◌≡◌, ◌≤◌, ◌<◌, ◌+◌, ◌++◌, ◌∷◌, [], IfErr, IfOk, IfSome, IsErrOf, None, OnErr, length, take, vec_len};
ghost use Rattle.std.specs.Io.KnownBytes.{Consumes, IsAtEnd};
ghost use Rattle.std.specs.Vec.{vec_capacity};
ghost use Rattle.lk_io.specs.Causes.{Rose};
ghost use Rattle.lk_http.specs.Answers.{OnlyReads};
ghost use Rattle.lk_http.specs.Heads.{AreOpenBefore};
ghost use Rattle.lk_http.specs.Places.{IsAt};
ghost use Rattle.lk_http.specs.Reading.{IsAnsweredBy, IsByteRead, IsHeadRead, IsStatedRead, StaysOpen, taken_by};
ghost use Rattle.lk_http.specs.Ways.{Comes};
ghost use Rattle.lk_http.specs.declared.faults.HttpFault.{HttpFault};

use crate::faults::HttpFault;
use crate::head::{HEAD_LIMIT, Seen, judge_next};
use crate::place::Place;
use lk_io::Link;
use lk_val::Bytes;
use std::alloc::Global;

// What the front of a request is.
pub(crate) enum Front {
    // The input ended before it began.
    Ended,
    // A whole head.
    Head,
}

// Reads a head, and no byte that it does not need.
pub(crate) fn read_head<L: Link>(link: &mut L, head: &mut Vec<u8>) -> Result<Front, HttpFault>
    requires room { 16384 ≤ vec_capacity head.old }
    ensures room { vec_capacity head.old ≤ vec_capacity head.new }
    ensures taken { Consumes (L.left link.old) (L.left link.new) head.new.items }
    ensures read { IsHeadRead (L.left link.new) head.new.items result }
    ensures link { OnlyReads (L.held link.old) (L.held link.new)
        (L.Sink.faults link.old) (L.Sink.faults link.new)
        (L.Source.faults link.old) (L.Source.faults link.new) }
    ensures cause { IsErrOf result HttpFault.ReadFault →
        Rose (L.Source.faults link.old) (L.Source.faults link.new) }
    ensures pulls { Comes L.Source.keeps_at_pull link.old link.new }
{
    head.clear();
    let mut place = Place::Blank;
    while head.len() < HEAD_LIMIT {
        let next = pull_byte(link);
        if let Some(answer) = add_next(head, &mut place, next) {
            return answer;
        }
    }
    // A front of that many bytes is too long.
    unreachable!()
}

// Adds the next byte to a head: what the head is then, or None where more bytes are wanted.
fn add_next(
    head: &mut Vec<u8>,
    place: &mut Place,
    next: Result<Option<u8>, HttpFault>,
) -> Option<Result<Front, HttpFault>>
    requires room { vec_len head.old < vec_capacity head.old }
    requires early { AreOpenBefore (length head.old.items + 1) head.old.items }
    requires at { IsAt head.old.items place.old }
    ensures room { vec_capacity head.old ≤ vec_capacity head.new }
    ensures added { head.new.items ≡ head.old.items ++ taken_by next }
    ensures stays { result ≡ None → StaysOpen head.old.items head.new.items place.new }
    ensures answer { IfSome result (IsAnsweredBy next head.new.items) }
    ensures cause { IfSome result (λ answer. IsErrOf answer HttpFault.ReadFault → IsErrOf next HttpFault.ReadFault) }
{
    let byte = match next {
        Ok(Some(byte)) => byte,
        Ok(None) if head.is_empty() => return Some(Ok(Front::Ended)),
        Ok(None) => return Some(Err(HttpFault::Truncated)),
        Err(fault) => return Some(Err(fault)),
    };
    push_within(head, byte);
    match judge_next(head.as_slice(), byte, place) {
        Seen::Open => None,
        Seen::Whole => Some(Ok(Front::Head)),
        Seen::TooLong => Some(Err(HttpFault::H6)),
        Seen::Invalid => Some(Err(HttpFault::H1)),
    }
}

// Adds a byte where there is room for it.
fn push_within(head: &mut Vec<u8>, byte: u8)
    requires room { vec_len head.old < vec_capacity head.old }
    ensures pushed { head.new.items ≡ head.old.items ++ byte ∷ [] }
    ensures room { vec_capacity head.old ≤ vec_capacity head.new }
{
    let Ok(()) = head.extend_from_slice(&[byte]) else {
        unreachable!()
    };
}

// The next byte, or None at the input's end.
fn pull_byte<L: Link>(link: &mut L) -> Result<Option<u8>, HttpFault>
    ensures read { IsByteRead (L.left link.old) (L.left link.new) result }
    ensures link { OnlyReads (L.held link.old) (L.held link.new)
        (L.Sink.faults link.old) (L.Sink.faults link.new)
        (L.Source.faults link.old) (L.Source.faults link.new) }
    ensures cause { IsErrOf result HttpFault.ReadFault →
        Rose (L.Source.faults link.old) (L.Source.faults link.new) }
    ensures pulls { Comes L.Source.keeps_at_pull link.old link.new }
{
    let mut byte = [0u8];
    match link.pull(&mut byte) {
        Ok(0) => Ok(None),
        Ok(_) => Ok(Some(byte[0])),
        Err(_) => Err(HttpFault::ReadFault),
    }
}

// The most bytes of a body that are pulled at once.
const PIECE: u64 = 8192;

// Reads a body of the stated length, into memory that grows as its bytes come. Where memory is refused it is
// None, and the bytes are read all the same.
pub(crate) fn read_body<L: Link>(
    alloc: Global,
    link: &mut L,
    stated: Result<u64, HttpFault>,
) -> Result<Option<Bytes>, HttpFault>
    ensures read { IsStatedRead (L.left link.old) (L.left link.new) stated result }
    ensures link { OnlyReads (L.held link.old) (L.held link.new)
        (L.Sink.faults link.old) (L.Sink.faults link.new)
        (L.Source.faults link.old) (L.Source.faults link.new) }
    ensures cause { IfOk stated (λ _. IsErrOf result HttpFault.ReadFault →
        Rose (L.Source.faults link.old) (L.Source.faults link.new)) }
    ensures pulls { Comes L.Source.keeps_at_pull link.old link.new }
{
    let mut missing = stated?;
    let mut body = Some(Bytes::new(alloc));
    let mut piece = [0u8; PIECE as usize];
    while missing > 0 {
        let most = missing.min(PIECE) as usize;
        let got = pull_piece(link, &mut piece, most)?;
        if got == 0 {
            return Err(HttpFault::Truncated);
        }
        body = append(body, &piece[..got]);
        missing -= got as u64;
    }
    Ok(body)
}

// Pulls at most so many bytes to the front of the room.
fn pull_piece<L: Link>(link: &mut L, room: &mut [u8], most: usize) -> Result<usize, HttpFault>
    requires some { 0 < most }
    requires within { most ≤ length room.old }
    ensures bound { IfOk result (λ got. got ≤ most) }
    ensures taken { IfOk result (λ got. Consumes (L.left link.old) (L.left link.new) (take got room.new)) }
    ensures ended { IfOk result (λ got. got ≡ 0 → IsAtEnd (L.left link.new)) }
    ensures fault { IfErr result (λ fault. fault ≡ HttpFault.ReadFault) }
    ensures untaken { OnErr result (Consumes (L.left link.old) (L.left link.new) []) }
    ensures link { OnlyReads (L.held link.old) (L.held link.new)
        (L.Sink.faults link.old) (L.Sink.faults link.new)
        (L.Source.faults link.old) (L.Source.faults link.new) }
    ensures cause { OnErr result (Rose (L.Source.faults link.old) (L.Source.faults link.new)) }
    ensures pulls { Comes L.Source.keeps_at_pull link.old link.new }
{
    match link.pull(&mut room[..most]) {
        Ok(got) => Ok(got),
        Err(_) => Err(HttpFault::ReadFault),
    }
}

// The body with a piece more, or None where memory is refused.
fn append(body: Option<Bytes>, piece: &[u8]) -> Option<Bytes>
    ensures longer { IfSome result (λ longer. IfSome body (λ before. longer ≡ before ++ piece.now)) }
    ensures none { body ≡ None → result ≡ None }
{
    let mut body = body?;
    body.append(piece).ok()?;
    Some(body)
}
