ghost use Rattle.std.specs.Prelude.{◌≡◌, ◌==◌, ◌&&◌, ◌||◌, not, count_by, length, map, true, ◌≤◌};
ghost use Rattle.std.specs.List.{find, list_all, list_any, slice_split};
ghost use Rattle.std.specs.Char.{is_ascii_digit};
ghost use Rattle.std.specs.Option.{option_map};
ghost use Rattle.std.specs.Str.Parse.{digits_value};
ghost use Rattle.httparse.specs.Borrowed.{header_parts};
ghost use Rattle.httparse.specs.Grammar.{is_ows, skip_ows};
ghost use Rattle.lk_http.specs.Fields.{body_length, closes, do_lengths_agree, has_close, is_close, is_close_field, is_coded, is_length_field, is_named, is_same_length, length_in, length_or_fault, stated_length, user_of, value_of};

use crate::faults::HttpFault;
use httparse::Header;
use lk_val::as_text;

// The most bytes of a body.
const BODY_LIMIT: u64 = 16_777_216;

/// The length of the body, or why it is refused. (RFC 9112, section 6; lookd)
#[tactic(auto, using(crate::proofs::FieldLemmas::list_any_map))]
pub(crate) fn body_length(is_post: bool, headers: &[Header<'_>]) -> Result<u64, HttpFault>
    ensures { result ≡ body_length is_post (map header_parts headers.now) }
{
    if !do_lengths_agree(headers) {
        return Err(HttpFault::H1);
    }
    if has_field("transfer-encoding", headers) {
        return Err(HttpFault::H2);
    }
    match stated_length(headers) {
        None if is_post => Err(HttpFault::H2),
        None => Ok(0),
        Some(length) if length > BODY_LIMIT => Err(HttpFault::H3(length)),
        Some(length) => Ok(length),
    }
}

/// The caller's name; empty unless there is exactly one `X-User`, which is UTF-8. (lookd)
pub(crate) fn user_of<'b>(headers: &[Header<'b>]) -> &'b str
    ensures { result.now ≡ user_of (map header_parts headers.now) }
{
    if count_fields("x-user", headers) != 1 {
        return "";
    }
    match value_of("x-user", headers) {
        Some(value) => as_text(value).unwrap_or(""),
        None => "",
    }
}

/// Whether a request asks to close its connection. (RFC 9112, section 9.6)
#[tactic(auto, using(crate::proofs::FieldLemmas::list_any_map))]
pub(crate) fn closes(minor: u8, headers: &[Header<'_>]) -> bool
    ensures { result ≡ closes minor (map header_parts headers.now) }
{
    minor == 0 || has_close_field(headers)
}

fn has_close_field(headers: &[Header<'_>]) -> bool
    ensures { result ≡ list_any (λ header. is_close_field (header_parts header)) headers.now }
{
    headers.iter().any(|header| is_close_field(header))
}

fn is_close_field(header: &Header<'_>) -> bool
    ensures { result ≡ is_close_field (header_parts header.now) }
{
    is_named("connection", header) && has_close(header.value)
}

// Whether one of the options between commas is `close`.
fn has_close(value: &[u8]) -> bool
    ensures { result ≡ has_close value.now }
{
    value
        .split(|byte| *byte == b',')
        .any(|option| is_close(option))
}

fn is_close(option: &[u8]) -> bool
    ensures { result ≡ is_close option.now }
{
    let option = skip_blanks(option);
    let (word, blanks) = option.split_at(option.len().min(5));
    word.eq_ignore_ascii_case(b"close") && are_blanks(blanks)
}

// What stands after the spaces and tabs at the front.
fn skip_blanks(bytes: &[u8]) -> &[u8]
    ensures { result.now ≡ skip_ows bytes.now }
{
    let mut rest = bytes;
    while let [b' ' | b'\t', more @ ..] = rest {
        rest = more;
    }
    rest
}

fn are_blanks(bytes: &[u8]) -> bool
    ensures { result ≡ list_all is_ows bytes.now }
{
    bytes.iter().all(|byte| *byte == b' ' || *byte == b'\t')
}

// Whether each Content-Length is 1 to 10 digits, and all are the same number.
#[tactic(auto, using(crate::proofs::FieldLemmas::list_all_map))]
fn do_lengths_agree(headers: &[Header<'_>]) -> bool
    ensures { result ≡ do_lengths_agree (map header_parts headers.now) }
{
    all_lengths_are(stated_length(headers), headers)
}

fn all_lengths_are(stated: Option<u64>, headers: &[Header<'_>]) -> bool
    ensures { result ≡ list_all (λ header. not (is_length_field (header_parts header))
        || is_same_length stated (length_in header.value.now)) headers.now }
{
    headers.iter().all(|header| !is_named("content-length", header)
        || is_same_length(stated, length_in(header.value)))
}

fn is_same_length(stated: Option<u64>, other: Option<u64>) -> bool
    ensures { result ≡ is_same_length stated other }
{
    match (stated, other) {
        (Some(n), Some(m)) => m == n,
        _ => false,
    }
}

// The length that the first Content-Length states.
fn stated_length(headers: &[Header<'_>]) -> Option<u64>
    ensures { result ≡ stated_length (map header_parts headers.now) }
{
    length_in(value_of("content-length", headers)?)
}

// The length that a value of 1 to 10 digits states.
fn length_in(value: &[u8]) -> Option<u64>
    ensures { result ≡ length_in value.now }
{
    if !value.is_empty() && value.len() <= 10 && are_digits(value) {
        Some(digits_value(value))
    } else {
        None
    }
}

fn are_digits(bytes: &[u8]) -> bool
    ensures { result ≡ list_all is_ascii_digit bytes.now }
{
    bytes.iter().all(|byte| byte.is_ascii_digit())
}

#[tactic(auto, using(crate::proofs::FieldLemmas::small_number, crate::proofs::FieldLemmas::digit_at, crate::proofs::FieldLemmas::number_more, crate::proofs::FieldLemmas::number_so_far))]
fn digits_value(digits: &[u8]) -> u64
    requires digits { list_all is_ascii_digit digits.now ≡ true }
    requires short { length digits.now ≤ 10 }
    ensures { result ≡ digits_value 10 digits.now }
{
    let mut number = 0;
    for digit in digits {
        number = number * 10 + u64::from(*digit - b'0');
    }
    number
}

// Whether a field has this name.
fn has_field(name: &str, headers: &[Header<'_>]) -> bool
    ensures { result ≡ list_any (λ header. is_named name.now (header_parts header)) headers.now }
{
    headers.iter().any(|header| is_named(name, header))
}

// How many fields have this name.
fn count_fields(name: &str, headers: &[Header<'_>]) -> usize
    ensures { result ≡ count_by (is_named name.now) (map header_parts headers.now) }
{
    headers
        .iter()
        .filter(|header| is_named(name, header))
        .count()
}

// The value of the first field of this name.
fn value_of<'b>(name: &str, headers: &[Header<'b>]) -> Option<&'b [u8]>
    ensures { option_map (λ value. value.now) result ≡ value_of name.now (map header_parts headers.now) }
{
    for header in headers {
        if is_named(name, header) {
            return Some(header.value);
        }
    }
    None
}

// Whether the field has this name, in any case.
fn is_named(name: &str, header: &Header<'_>) -> bool
    ensures { result ≡ is_named name.now (header_parts header.now) }
{
    header.name.eq_ignore_ascii_case(name)
}
