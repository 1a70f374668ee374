ghost use Rattle.std.specs.Prelude.{◌≡◌, ◌<◌, ◌==◌, IfOk, map, option_and_then, option_map};
ghost use Rattle.std.specs.List.{list_all, slice_split};
ghost use Rattle.lk_view.specs.Tables.{any_name, in_pair, is_name_byte, last_name, plain_name, table_named, unless_empty};

use lk_val::NoMemory;
use std::alloc::{AllocError, Global};

/// The name of the table in the text of `sql_table_name`: the last of one or more names between dots. A name is letters,
/// digits and underscores, or anything in double quotes or backquotes; or all names stand in one pair of backquotes. None
/// where the text is none of that. (Looker, LookML reference: sql_table_name)
pub fn table_named<'a>(alloc: Global, text: &'a str) -> Result<Option<&'a str>, NoMemory>
    ensures { IfOk result (λ name. option_map (λ n. n.now) name ≡ table_named text.now) }
{
    let pieces = cut(alloc, text, '.')?;
    if let Some(name) = last_of_any(alloc, pieces.as_slice())? {
        return Ok(Some(name));
    }
    match in_pair(alloc, text, '`')? {
        None => Ok(None),
        Some(inner) => {
            let pieces = cut(alloc, inner, '.')?;
            Ok(last_of_plain(pieces.as_slice()))
        }
    }
}

fn cut<'a>(alloc: Global, text: &'a str, mark: char) -> Result<Vec<&'a str>, AllocError>
    requires ascii { mark < 128 }
    ensures { IfOk result (λ pieces. map (λ p. p.now) pieces.items ≡ slice_split (λ c. c == mark) text.now) }
{
    text.split(mark).collect(alloc)
}

// The text between a mark at the beginning and one at the end, where there is no third.
fn in_pair<'a>(alloc: Global, text: &'a str, mark: char) -> Result<Option<&'a str>, NoMemory>
    requires ascii { mark < 128 }
    ensures { IfOk result (λ inner. option_map (λ i. i.now) inner ≡ in_pair mark text.now) }
{
    let pieces = cut(alloc, text, mark)?;
    match pieces.as_slice() {
        [before, inner, after] if before.is_empty() && after.is_empty() => Ok(Some(inner)),
        _ => Ok(None),
    }
}

fn unless_empty<'a>(text: &'a str) -> Option<&'a str>
    ensures { option_map (λ t. t.now) result ≡ unless_empty text.now }
{
    if text.is_empty() { None } else { Some(text) }
}

fn is_plain(text: &str) -> bool
    ensures { result ≡ list_all is_name_byte text.now }
{
    text.as_bytes().iter().all(|c| is_name_byte(*c))
}

fn is_name_byte(c: u8) -> bool
    ensures { result ≡ is_name_byte c }
{
    c.is_ascii_alphanumeric() || c == b'_'
}

fn any_name<'a>(alloc: Global, text: &'a str) -> Result<Option<&'a str>, NoMemory>
    ensures { IfOk result (λ name. option_map (λ n. n.now) name ≡ any_name text.now) }
{
    if is_plain(text) && !text.is_empty() {
        return Ok(Some(text));
    }
    if let Some(name) = quoted_name(alloc, text, '"')? {
        return Ok(Some(name));
    }
    quoted_name(alloc, text, '`')
}

fn quoted_name<'a>(alloc: Global, text: &'a str, quote: char) -> Result<Option<&'a str>, NoMemory>
    requires ascii { quote < 128 }
    ensures { IfOk result (λ name. option_map (λ n. n.now) name ≡ option_and_then unless_empty (in_pair quote text.now)) }
{
    match in_pair(alloc, text, quote)? {
        None => Ok(None),
        Some(inner) => Ok(unless_empty(inner)),
    }
}

fn last_of_any<'a>(alloc: Global, texts: &[&'a str]) -> Result<Option<&'a str>, NoMemory>
    ensures { IfOk result (λ name. option_map (λ n. n.now) name ≡ last_name any_name (map (λ t. t.now) texts.now)) }
{
    let mut rest = texts;
    loop {
        match rest {
            [] => return Ok(None),
            [text] => return any_name(alloc, text),
            [text, more @ ..] => {
                if any_name(alloc, text)?.is_none() {
                    return Ok(None);
                }
                rest = more;
            }
        }
    }
}

fn last_of_plain<'a>(texts: &[&'a str]) -> Option<&'a str>
    ensures { option_map (λ n. n.now) result ≡ last_name unless_empty (map (λ t. t.now) texts.now) }
{
    let mut rest = texts;
    loop {
        match rest {
            [] => return None,
            [text] => return unless_empty(text),
            [text, more @ ..] => {
                if unless_empty(text).is_none() {
                    return None;
                }
                rest = more;
            }
        }
    }
}
