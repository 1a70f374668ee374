ghost use Rattle.std.specs.Prelude.{◌≡◌, length, false};
ghost use Rattle.std.specs.List.{list_all};
ghost use Rattle.httparse.specs.Grammar.{is_uri_byte, NeverHasRequest};
ghost use Rattle.std.specs.Option.{option_map};
ghost use Rattle.lk_http.specs.Heads.{AreOpenBefore, has_field_over, is_empty_line, is_over};
ghost use Rattle.lk_http.specs.Judged.{IsSeen};
ghost use Rattle.lk_http.specs.Places.{IsAt, IsBehind};
ghost use Rattle.lk_http.specs.Targets.{cut_line, ends_in_target, find_feed, is_before_target_end, skip_empty};
ghost use Rattle.lk_http.specs.declared.head.Seen.{Seen};

use crate::place::Place;
use httparse::spans::{EMPTY_HEADER_SPAN, parse_request};
use httparse::{Error, Status, is_method_token, is_uri_token};

// What the bytes of a head are so far.
#[derive(Clone, Copy, PartialEq, Eq)]
pub(crate) enum Seen {
    /// More bytes are wanted.
    Open,
    Whole,
    /// There are 16,384 bytes without an end, or a 65th field.
    TooLong,
    /// No more bytes make a head.
    Invalid,
}

// The most bytes and fields of a head.
pub(crate) const HEAD_LIMIT: usize = 16_384;

const FIELD_LIMIT: usize = 64;

// Judges the bytes of a head that end with a byte behind a place, and of which all shorter fronts wanted more.
// The grammar is asked only where the place does not tell.
pub(crate) fn judge_next(head: &[u8], byte: u8, place: &mut Place) -> Seen
    requires early { AreOpenBefore (length head.now) head.now }
    requires behind { IsBehind head.now byte place.old }
    ensures seen { IsSeen head.now result }
    ensures place { result ≡ Seen.Open → IsAt head.now place.new }
{
    if head.len() < HEAD_LIMIT {
        if let Some(next) = place.step(byte) {
            *place = next;
            return Seen::Open;
        }
    }
    *place = place.after(byte);
    judge(head)
}

// Judges the bytes of a head, of which all shorter fronts wanted more.
fn judge(head: &[u8]) -> Seen
    requires { AreOpenBefore (length head.now) head.now }
    ensures { IsSeen head.now result }
{
    let mut fields = [EMPTY_HEADER_SPAN; FIELD_LIMIT];
    match parse_request(head, &mut fields) {
        Ok(Status::Complete(_)) => Seen::Whole,
        Ok(Status::Partial) if is_over(head) => Seen::TooLong,
        Ok(Status::Partial) => Seen::Open,
        Err(Error::TooManyHeaders) => Seen::TooLong,
        Err(_) => judge_invalid(head),
    }
}

// Judges bytes that no more bytes make a head.
fn judge_invalid(head: &[u8]) -> Seen
    requires { NeverHasRequest head.now }
    ensures { IsSeen head.now result }
{
    if is_over(head) {
        Seen::TooLong
    } else if ends_in_target(head) {
        Seen::Open
    } else {
        Seen::Invalid
    }
}

fn is_over(head: &[u8]) -> bool
    ensures { result ≡ is_over head.now }
{
    head.len() >= HEAD_LIMIT || has_field_over(head)
}

// Whether the request line and 65 lines more that are not empty have ended.
fn has_field_over(head: &[u8]) -> bool
    ensures { result ≡ has_field_over head.now }
{
    let mut lines = 0;
    let mut rest = head;
    while let Some((line, more)) = cut_line(rest) {
        if !is_empty_line(line) {
            if lines > FIELD_LIMIT {
                return true;
            }
            lines += 1;
        }
        rest = more;
    }
    false
}

// The first line without its line feed, and what follows it.
fn cut_line(bytes: &[u8]) -> Option<(&[u8], &[u8])>
    ensures { option_map (λ cut. (cut.0.now, cut.1.now)) result ≡ cut_line bytes.now }
{
    let end = find_feed(bytes)?;
    Some((&bytes[..end], &bytes[end + 1..]))
}

fn find_feed(bytes: &[u8]) -> Option<usize>
    ensures { result ≡ find_feed bytes.now }
{
    bytes.iter().position(|byte| *byte == b'\n')
}

fn is_empty_line(line: &[u8]) -> bool
    ensures { result ≡ is_empty_line line.now }
{
    matches!(line, [] | [b'\r'])
}

// Whether the bytes end within the target of a request line.
fn ends_in_target(head: &[u8]) -> bool
    ensures { result ≡ ends_in_target head.now }
{
    is_before_target_end(skip_empty(head))
}

// What stands after the empty lines at the front.
fn skip_empty(head: &[u8]) -> &[u8]
    ensures { result.now ≡ skip_empty head.now }
{
    let mut rest = head;
    loop {
        match rest {
            [b'\n', more @ ..] | [b'\r', b'\n', more @ ..] => rest = more,
            _ => return rest,
        }
    }
}

// Whether a line is a method, a space, and bytes of a target.
fn is_before_target_end(line: &[u8]) -> bool
    ensures { result ≡ is_before_target_end false line.now }
{
    let mut begun = false;
    let mut rest = line;
    while let [byte, more @ ..] = rest {
        if *byte == b' ' {
            return begun && are_uri_bytes(more);
        }
        if !is_method_token(*byte) {
            return false;
        }
        begun = true;
        rest = more;
    }
    false
}

fn are_uri_bytes(bytes: &[u8]) -> bool
    ensures { result ≡ list_all is_uri_byte bytes.now }
{
    bytes.iter().all(|byte| is_uri_token(*byte))
}
