ghost use Rattle.std.specs.Prelude.{◌≡◌, IfOk, option_map, filter, not};
ghost use Rattle.std.specs.List.{list_any};
ghost use Rattle.lk_include.specs.Patterns.{without_last, begins_with_slash, names_behind, matches_in, matches, pattern_for};
ghost use Rattle.lk_include.specs.Gathering.{matches_if};

use crate::paths::names_of;
use crate::patterns::matches_names;
use lk_val::{Bytes, Items, NoMemory, Text};
use std::alloc::Global;

/// A pattern: the names of the folder in which it begins, and its own.
#[derive(Drop)]
pub struct Pattern {
    pub folder: Items<Bytes>,
    pub names: Items<Bytes>,
}

/// The pattern of an include in a file: from the root behind a slash, and else from the file's folder.
/// (Looker, LookML reference: include)
pub fn pattern_for(
    alloc: Global,
    file: &Text,
    text: &Option<Text>,
) -> Result<Option<Pattern>, NoMemory>
    ensures { IfOk result (λ pattern. pattern ≡ option_map (pattern_for file.now) text.now) }
{
    match text {
        None => Ok(None),
        Some(text) => Ok(Some(read_pattern(alloc, file.as_bytes(), text.as_bytes())?)),
    }
}

fn read_pattern(alloc: Global, file: &[u8], text: &[u8]) -> Result<Pattern, NoMemory>
    ensures { IfOk result (λ pattern. pattern ≡ pattern_for file.now text.now) }
{
    if begins_with_slash(text) {
        return Ok(Pattern {
            folder: Items::new(alloc),
            names: names_of(alloc, &text[1..])?,
        });
    }
    Ok(Pattern {
        folder: without_last(names_of(alloc, file)?),
        names: names_of(alloc, text)?,
    })
}

fn begins_with_slash(text: &[u8]) -> bool
    ensures { result ≡ begins_with_slash text.now }
{
    match text {
        [first, ..] => *first == b'/',
        [] => false,
    }
}

fn without_last(names: Items<Bytes>) -> Items<Bytes>
    ensures { result ≡ without_last names }
{
    let mut names = names.into_vec();
    let _last = names.pop();
    Items::from_vec(names)
}

/// Whether a pattern matches one of some paths.
pub fn matches_some(
    alloc: Global,
    pattern: &Option<Pattern>,
    paths: &[Text],
) -> Result<bool, NoMemory>
    ensures { IfOk result (λ so. so ≡ list_any (matches_if pattern.now) paths.now) }
{
    for path in paths {
        if matches_if(alloc, pattern, path)? {
            return Ok(true);
        }
    }
    Ok(false)
}

/// The paths that a pattern matches, in order.
pub fn matched(
    alloc: Global,
    pattern: &Option<Pattern>,
    paths: &[Text],
) -> Result<Items<Text>, NoMemory>
    ensures { IfOk result (λ found. found ≡ filter (matches_if pattern.now) paths.now) }
{
    let mut found = Items::new(alloc);
    for path in paths {
        if matches_if(alloc, pattern, path)? {
            found.push(path.copy(alloc)?)?;
        }
    }
    Ok(found)
}

/// The paths that a pattern does not match, in order.
pub fn unmatched(
    alloc: Global,
    pattern: &Option<Pattern>,
    paths: &[Text],
) -> Result<Items<Text>, NoMemory>
    ensures { IfOk result (λ left. left ≡ filter (λ path. not (matches_if pattern.now path)) paths.now) }
{
    let mut left = Items::new(alloc);
    for path in paths {
        if !matches_if(alloc, pattern, path)? {
            left.push(path.copy(alloc)?)?;
        }
    }
    Ok(left)
}

fn matches_if(alloc: Global, pattern: &Option<Pattern>, path: &Text) -> Result<bool, NoMemory>
    ensures { IfOk result (λ so. so ≡ matches_if pattern.now path.now) }
{
    match pattern {
        None => Ok(false),
        Some(pattern) => matches(alloc, pattern, path.as_bytes()),
    }
}

fn matches(alloc: Global, pattern: &Pattern, path: &[u8]) -> Result<bool, NoMemory>
    ensures { IfOk result (λ so. so ≡ matches pattern.now path.now) }
{
    if matches_in(pattern, names_of(alloc, path)?.as_slice()) {
        return Ok(true);
    }
    let end = path.len().saturating_sub(5);
    Ok(matches_in(pattern, names_of(alloc, &path[..end])?.as_slice()))
}

fn matches_in(pattern: &Pattern, names: &[Bytes]) -> bool
    ensures { result ≡ matches_in pattern.now.folder pattern.now.names names.now }
{
    match names_behind(pattern.folder.as_slice(), names) {
        None => false,
        Some(names) => matches_names(pattern.names.as_slice(), names),
    }
}

// A path's names that are left behind those of a folder.
fn names_behind<'a>(folder: &[Bytes], names: &'a [Bytes]) -> Option<&'a [Bytes]>
    ensures { option_map (λ names. names.now) result ≡ names_behind folder.now names.now }
{
    let mut left = names;
    for name in folder {
        let Some((first, behind)) = left.split_first() else {
            return None;
        };
        if *name != *first {
            return None;
        }
        left = behind;
    }
    Some(left)
}
