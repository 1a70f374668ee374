ghost use Rattle.std.specs.Prelude.{◌≡◌, ◌++◌, ◌∷◌, [], codes, IfOk, Option, Some, None};
ghost use Rattle.lk_read.specs.Canonical.{canonical, SpellsAgain, text_at, characters, escaped, string_text, entry_text, further_entries, entries_text, plain_text, title_text, start_text, block_text};
ghost use Rattle.lk_read.specs.EntryOutline.{value_text, entry_of, entries_of};
ghost use Rattle.lk_read.specs.Outline.{no_more, list};
ghost use Rattle.lk_read.specs.TreeOutline.{item_before, outline_of};

use crate::tree::{Entry, Item, Node, Tree};
use lk_val::{Bytes, NoMemory, Text};
use std::alloc::Global;

/// The canonical text of a tree: one parameter a line, two spaces for each block around it. In a list, a value that no
/// text has there stands as it does behind a parameter's name. (lookd)
pub fn print_tree(alloc: Global, tree: &Tree) -> Result<Bytes, NoMemory>
    ensures canonical { IfOk result (λ text. text ≡ canonical tree.now) }
    // Where a text spells the tree, this one does too, places aside: so reading it gives the tree again.
    ensures again { IfOk result (λ text. SpellsAgain 32 text tree.now) }
{
    print_items(alloc, Bytes::new(alloc), tree, &[])
}

/// The text with the lines of a tree, each behind the margin.
#[cycle(print)]
#[tactic(auto, using(crate::proofs::OutlineLaws::item_text))]
fn print_items(alloc: Global, text: Bytes, tree: &Tree, margin: &[u8]) -> Result<Bytes, NoMemory>
    ensures { IfOk result (λ made. made ≡ text ++ text_at margin.now tree.now) }
{
    let mut text = text;
    for item in tree.items() {
        text = print_item(alloc, text, item, margin)?;
    }
    Ok(text)
}

#[cycle(print)]
fn print_item(alloc: Global, text: Bytes, item: &Item, margin: &[u8]) -> Result<Bytes, NoMemory>
    ensures { IfOk result (λ made. made
        ≡ text ++ text_at margin.now (item_before item.now.name item.now.place item.now.value no_more)) }
{
    let text = start_line(text, margin, item.name.as_bytes())?;
    match &item.value {
        Node::Block(title, inner) => {
            let text = print_title(text, title)?;
            print_block(alloc, text, inner, margin)
        }
        value => end_line(print_value(alloc, text, value)?),
    }
}

/// A value. Behind a parameter's name a block has that line's margin, and here it has none.
#[cycle(print)]
fn print_value(alloc: Global, text: Bytes, value: &Node) -> Result<Bytes, NoMemory>
    ensures { IfOk result (λ made. made ≡ text ++ value_text value.now) }
{
    match value {
        Node::Word(word) => with(text, word.as_bytes()),
        Node::Quoted(string) => print_string(text, string.as_bytes()),
        Node::List(entries) => print_list(alloc, text, entries.as_slice()),
        Node::Code(code) => print_code(text, code.as_bytes()),
        Node::Block(title, inner) => {
            let text = print_title(text, title)?;
            print_block(alloc, text, inner, &[])
        }
    }
}

#[cycle(print)]
fn print_block(alloc: Global, text: Bytes, inner: &Tree, margin: &[u8]) -> Result<Bytes, NoMemory>
    ensures { IfOk result (λ made. made
        ≡ text ++ block_text margin.now inner.now (text_at (margin.now ++ 32 ∷ 32 ∷ []) inner.now)) }
{
    if inner.is_empty() {
        return print_empty(text);
    }
    let deeper = deeper_margin(alloc, margin)?;
    let text = print_items(alloc, with(text, b"{\n")?, inner, deeper.as_slice())?;
    end_block(text, margin)
}

fn print_empty(text: Bytes) -> Result<Bytes, NoMemory>
    ensures { IfOk result (λ made. made ≡ text ++ codes "{ }" ++ 10 ∷ []) }
{
    end_line(with(text, b"{ }")?)
}

fn deeper_margin(alloc: Global, margin: &[u8]) -> Result<Bytes, NoMemory>
    ensures { IfOk result (λ made. made ≡ margin.now ++ 32 ∷ 32 ∷ []) }
{
    with(Bytes::from_slice(alloc, margin)?, b"  ")
}

fn end_block(text: Bytes, margin: &[u8]) -> Result<Bytes, NoMemory>
    ensures { IfOk result (λ made. made ≡ text ++ margin.now ++ 125 ∷ 10 ∷ []) }
{
    with(with(text, margin)?, b"}\n")
}

/// A line's margin, and the name with its colon.
fn start_line(text: Bytes, margin: &[u8], name: &[u8]) -> Result<Bytes, NoMemory>
    ensures { IfOk result (λ made. made ≡ text ++ start_text margin.now name.now) }
{
    with(with(with(text, margin)?, name)?, b": ")
}

fn print_code(text: Bytes, code: &[u8]) -> Result<Bytes, NoMemory>
    ensures { IfOk result (λ made. made ≡ text ++ code.now ++ codes " ;;") }
{
    with(with(text, code)?, b" ;;")
}

/// A block's name and a space, if it has a name.
fn print_title(text: Bytes, title: &Option<Text>) -> Result<Bytes, NoMemory>
    ensures { IfOk result (λ made. made ≡ text ++ title_text title.now) }
{
    match title {
        None => Ok(text),
        Some(title) => with(with(text, title.as_bytes())?, b" "),
    }
}

#[cycle(print)]
fn print_list(alloc: Global, text: Bytes, entries: &[Entry]) -> Result<Bytes, NoMemory>
    ensures { IfOk result (λ made. made
        ≡ text ++ 91 ∷ (entries_text (entries_of entries.now) ++ 93 ∷ [])) }
{
    let text = with(text, b"[")?;
    let text = print_entries(alloc, text, entries)?;
    with(text, b"]")
}

#[cycle(print)]
fn print_entries(alloc: Global, text: Bytes, entries: &[Entry]) -> Result<Bytes, NoMemory>
    ensures { IfOk result (λ made. made ≡ text ++ entries_text (entries_of entries.now)) }
{
    match entries.split_first() {
        None => Ok(text),
        Some((first, rest)) => print_further(alloc, print_entry(alloc, text, first)?, rest),
    }
}

/// The entries behind the first, each with a comma before it.
#[cycle(print)]
fn print_further(alloc: Global, text: Bytes, entries: &[Entry]) -> Result<Bytes, NoMemory>
    ensures { IfOk result (λ made. made ≡ text ++ further_entries (entries_of entries.now)) }
{
    let mut text = text;
    for entry in entries {
        text = print_entry(alloc, with(text, b", ")?, entry)?;
    }
    Ok(text)
}

#[cycle(print)]
#[tactic(auto, using(crate::proofs::OutlineLaws::one_text))]
fn print_entry(alloc: Global, text: Bytes, entry: &Entry) -> Result<Bytes, NoMemory>
    ensures { IfOk result (λ made. made ≡ text ++ entry_text (entry_of entry.now)) }
{
    match entry {
        Entry::One(value) => print_value(alloc, text, value),
        Entry::Pair(key, string) => print_pair(text, key.as_bytes(), string.as_bytes()),
    }
}

fn print_pair(text: Bytes, key: &[u8], string: &[u8]) -> Result<Bytes, NoMemory>
    ensures { IfOk result (λ made. made ≡ text ++ key.now ++ codes ": " ++ string_text string.now) }
{
    let text = with(text, key)?;
    print_string(with(text, b": ")?, string)
}

fn print_string(text: Bytes, string: &[u8]) -> Result<Bytes, NoMemory>
    ensures { IfOk result (λ made. made ≡ text ++ string_text string.now) }
{
    let text = with(text, b"\"")?;
    let text = print_characters(text, string)?;
    with(text, b"\"")
}

fn print_characters(text: Bytes, string: &[u8]) -> Result<Bytes, NoMemory>
    ensures { IfOk result (λ made. made ≡ text ++ characters string.now) }
{
    let mut text = text;
    for byte in string {
        text = print_character(text, *byte)?;
    }
    Ok(text)
}

/// A character of a string, behind a backslash where it needs one.
fn print_character(text: Bytes, byte: u8) -> Result<Bytes, NoMemory>
    ensures { IfOk result (λ made. made ≡ text ++ escaped byte) }
{
    if byte == b'"' || byte == b'\\' {
        with(text, &[b'\\', byte])
    } else {
        with(text, &[byte])
    }
}

fn end_line(text: Bytes) -> Result<Bytes, NoMemory>
    ensures { IfOk result (λ made. made ≡ text ++ 10 ∷ []) }
{
    with(text, b"\n")
}

fn with(text: Bytes, more: &[u8]) -> Result<Bytes, NoMemory>
    ensures { IfOk result (λ made. made ≡ text ++ more.now) }
{
    let mut text = text;
    text.append(more)?;
    Ok(text)
}
