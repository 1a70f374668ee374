// Trees that are made by hand, as no text spells them, or taken apart and made again; and their canonical texts.

use crate::fault::CaseFault;
use crate::written::{repeated, written};
use lk_read::{Entries, Entry, Item, Node, ReadFault, Tree, print_tree, read_file};
use lk_val::{Text, as_text};
use std::alloc::Global;

/// Adds the canonical text of the tree of this name.
pub fn add_made(alloc: Global, name: &str, line: &mut String) -> Result<(), CaseFault> {
    let value = node_of(alloc, name)?;
    add_tree(alloc, &tree_of(alloc, "a", value)?, line)
}

/// Adds the canonical text of the tree that a text spells.
pub fn add_read(alloc: Global, text: &str, line: &mut String) -> Result<(), CaseFault> {
    add_tree(alloc, &read(alloc, written(alloc, text)?.as_slice())?, line)
}

/// Adds whether a text is printed as it stands. Where a count is given, the second of its fields stands so many times.
pub fn add_canonical(
    alloc: Global,
    count: &str,
    text: &str,
    line: &mut String,
) -> Result<(), CaseFault> {
    let text = if count.is_empty() {
        written(alloc, text)?
    } else {
        repeated(alloc, count, text)?
    };
    let printed = print_tree(alloc, &read(alloc, text.as_slice())?)?;
    let is_same = printed.as_slice() == text.as_slice();
    Ok(line.push_str(if is_same {
        "prints as it stands"
    } else {
        "prints as another"
    })?)
}

/// Adds the names of the parameters that a text spells, and of those in their blocks, each behind the place of its first
/// byte.
pub fn add_names(alloc: Global, text: &str, line: &mut String) -> Result<(), CaseFault> {
    let tree = read(alloc, written(alloc, text)?.as_slice())?;
    for item in tree.items() {
        push_name(item, line)?;
        if let Node::Block(_, inner) = &item.value {
            for below in inner.items() {
                push_name(below, line)?;
            }
        }
    }
    Ok(())
}

fn push_name(item: &Item, line: &mut String) -> Result<(), CaseFault> {
    let (place, name) = (item.place, item.name.as_str());
    Ok(write!(line, "{place} {name} ")?)
}

/// Adds the canonical text of the tree that a text spells, once it and each list in it are taken apart and made again.
pub fn add_made_again(alloc: Global, text: &str, line: &mut String) -> Result<(), CaseFault> {
    let mut items = Vec::new(alloc);
    for item in read(alloc, text.as_bytes())?.into_vec() {
        items.push(made_again(item))?;
    }
    add_tree(alloc, &Tree::from_vec(items), line)
}

fn read(alloc: Global, text: &[u8]) -> Result<Tree, CaseFault> {
    if text.len() > 1_000_000 {
        return Err(CaseFault::NoSuchCase);
    }
    match read_file(alloc, text) {
        Ok(tree) => Ok(tree),
        Err(ReadFault::NoMemory) => Err(CaseFault::NoMemory),
        Err(_) => Err(CaseFault::NoSuchCase),
    }
}

fn made_again(item: Item) -> Item {
    let Item { name, value, place } = item;
    let value = match value {
        Node::List(entries) => Node::List(Entries::from_vec(entries.into_vec())),
        other => other,
    };
    Item { name, value, place }
}

// The text of a tree in one line, with `\n` for the end of a line.
fn add_tree(alloc: Global, tree: &Tree, line: &mut String) -> Result<(), CaseFault> {
    let printed = print_tree(alloc, tree)?;
    let text = as_text(printed.as_slice()).ok_or(CaseFault::NoSuchCase)?;
    let in_one_line = text.replace(alloc, "\n", "\\n")?;
    Ok(line.push_str(in_one_line.as_str())?)
}

fn node_of(alloc: Global, name: &str) -> Result<Node, CaseFault> {
    match name {
        "a list" => list(alloc),
        "a list of other values" => list_of_others(alloc),
        "a list of none" => Ok(Node::List(Entries::new(alloc))),
        _ => Err(CaseFault::NoSuchCase),
    }
}

fn tree_of(alloc: Global, name: &str, value: Node) -> Result<Tree, CaseFault> {
    let name = text(alloc, name)?;
    let mut items = Vec::new(alloc);
    items.push(Item {
        name,
        value,
        place: 0,
    })?;
    Ok(Tree::from_vec(items))
}

fn text(alloc: Global, text: &str) -> Result<Text, CaseFault> {
    Ok(Text::from_str(alloc, text)?)
}

// A word, a string with a quote in it, and a pair.
fn list(alloc: Global) -> Result<Node, CaseFault> {
    let mut entries = Vec::new(alloc);
    entries.push(Entry::One(Node::Word(text(alloc, "b")?)))?;
    entries.push(Entry::One(Node::Quoted(text(alloc, "c \"d")?)))?;
    entries.push(Entry::Pair(text(alloc, "e.f")?, text(alloc, ">5")?))?;
    Ok(Node::List(Entries::from_vec(entries)))
}

// A list, code and a block, which no text has as entries.
fn list_of_others(alloc: Global) -> Result<Node, CaseFault> {
    let mut inner = Vec::new(alloc);
    inner.push(Entry::One(Node::Word(text(alloc, "b")?)))?;
    let below = tree_of(alloc, "e", Node::Word(text(alloc, "f")?))?;
    let mut entries = Vec::new(alloc);
    entries.push(Entry::One(Node::List(Entries::from_vec(inner))))?;
    entries.push(Entry::One(Node::Code(text(alloc, "c")?)))?;
    entries.push(Entry::One(Node::Block(Some(text(alloc, "d")?), below)))?;
    Ok(Node::List(Entries::from_vec(entries)))
}
