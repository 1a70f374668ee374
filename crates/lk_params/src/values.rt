ghost use Rattle.std.specs.Prelude.{◌≡◌, IfOk, option_map};
ghost use Rattle.lk_params.specs.Values.{scalar, code, words, pairs, title_of, entry_words, entry_pairs, entry_scalar};
ghost use Rattle.lk_read.specs.EntryOutline.{entry_of, entries_of};

use lk_read::{Entry, Node};
use lk_val::{Items, NoMemory, Text};
use std::alloc::Global;

/// The text of a word or a string; either may stand for the other. (lookd)
pub fn scalar(value: &Node) -> Option<&Text>
    ensures { option_map (λ text. text.now) result ≡ scalar value.now }
{
    match value {
        Node::Word(text) | Node::Quoted(text) => Some(text),
        Node::List(_) | Node::Block(_, _) | Node::Code(_) => None,
    }
}

/// The text of code.
pub fn code(value: &Node) -> Option<&Text>
    ensures { option_map (λ text. text.now) result ≡ code value.now }
{
    match value {
        Node::Code(text) => Some(text),
        _ => None,
    }
}

/// The name of a block that has one.
pub fn titled(value: &Node) -> Option<&Text>
    ensures { option_map (λ text. text.now) result ≡ title_of value.now }
{
    match value {
        Node::Block(title, _) => title.as_ref(),
        _ => None,
    }
}

/// The texts of a list of words and strings; none of another value, or of a list with a pair.
pub fn words(alloc: Global, value: &Node) -> Result<Option<Items<Text>>, NoMemory>
    ensures { IfOk result (λ found. found ≡ words value.now) }
{
    match value {
        Node::List(entries) => entry_words(alloc, entries.as_slice()),
        _ => Ok(None),
    }
}

#[tactic(auto, using(crate::proofs::Steps::prefixed_more))]
fn entry_words(alloc: Global, entries: &[Entry]) -> Result<Option<Items<Text>>, NoMemory>
    ensures { IfOk result (λ texts. texts ≡ entry_words (entries_of entries.now)) }
{
    let mut texts = Items::new(alloc);
    for entry in entries {
        match entry_scalar(entry) {
            Some(text) => texts.push(text.copy(alloc)?)?,
            None => return Ok(None),
        }
    }
    Ok(Some(texts))
}

fn entry_scalar(entry: &Entry) -> Option<&Text>
    ensures { option_map (λ text. text.now) result ≡ entry_scalar (entry_of entry.now) }
{
    match entry {
        Entry::One(value) => scalar(value),
        Entry::Pair(_, _) => None,
    }
}

/// The names and texts of a list of pairs, as `[status: "open", total: ">5"]`; none of another value, or of a list with a
/// word.
pub fn pairs(alloc: Global, value: &Node) -> Result<Option<Items<(Text, Text)>>, NoMemory>
    ensures { IfOk result (λ found. found ≡ pairs value.now) }
{
    match value {
        Node::List(entries) => entry_pairs(alloc, entries.as_slice()),
        _ => Ok(None),
    }
}

#[tactic(auto, using(crate::proofs::Steps::prefixed_pair))]
fn entry_pairs(alloc: Global, entries: &[Entry]) -> Result<Option<Items<(Text, Text)>>, NoMemory>
    ensures { IfOk result (λ found. found ≡ entry_pairs (entries_of entries.now)) }
{
    let mut pairs = Items::new(alloc);
    for entry in entries {
        match entry {
            Entry::Pair(name, text) => pairs.push((name.copy(alloc)?, text.copy(alloc)?))?,
            Entry::One(_) => return Ok(None),
        }
    }
    Ok(Some(pairs))
}
