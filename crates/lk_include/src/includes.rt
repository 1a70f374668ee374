ghost use Rattle.std.specs.Prelude.{◌≡◌, ◌∷◌, ◌++◌, [], IfOk, map, option_map, unwrap_or};
ghost use Rattle.lk_read.specs.EntryOutline.{entry_of, entries_of};
ghost use Rattle.lk_params.specs.Values.{entry_scalar};
ghost use Rattle.lk_params.specs.Picking.{first_in};
ghost use Rattle.lk_include.specs.Gathering.{patterns_in, includes_of, included, reaches_nothing};

use crate::faults::line;
use crate::matching::{matches_some, pattern_for};
use lk_params::{parameters_of, scalar};
use lk_read::{Entry, Node, Tree};
use lk_val::{FaultLine, Items, NoMemory, Text};
use std::alloc::Global;

/// A pattern of an `include`, with the place of the parameter; none where the value is no pattern.
#[derive(Drop)]
pub struct Include {
    pub place: u32,
    pub pattern: Option<Text>,
}

/// The includes of a file, in order.
pub fn includes_of(alloc: Global, tree: &Tree) -> Result<Items<Include>, NoMemory>
    ensures { IfOk result (λ found. found ≡ includes_of tree.now) }
{
    let mut found = Items::new(alloc);
    for item in parameters_of(tree) {
        if item.name.as_str() == "include" {
            add_patterns(alloc, item.place, &item.value, &mut found)?;
        }
    }
    Ok(found)
}

fn add_patterns(
    alloc: Global,
    place: u32,
    value: &Node,
    found: &mut Items<Include>,
) -> Result<(), NoMemory>
    ensures { IfOk result (λ _. found.new ≡ found.old ++ map (included place) (patterns_in value.now)) }
{
    match value {
        Node::Word(text) | Node::Quoted(text) => add_pattern(alloc, place, Some(text), found),
        Node::List(entries) => add_entries(alloc, place, entries.as_slice(), found),
        Node::Block(_, _) | Node::Code(_) => add_pattern(alloc, place, None, found),
    }
}

fn add_entries(
    alloc: Global,
    place: u32,
    entries: &[Entry],
    found: &mut Items<Include>,
) -> Result<(), NoMemory>
    ensures { IfOk result (λ _. found.new
        ≡ found.old ++ map (included place) (map entry_scalar (entries_of entries.now))) }
{
    for entry in entries {
        add_pattern(alloc, place, entry_pattern(entry), found)?;
    }
    Ok(())
}

fn entry_pattern(entry: &Entry) -> Option<&Text>
    ensures { option_map (λ text. text.now) result ≡ entry_scalar (entry_of entry.now) }
{
    match entry {
        Entry::One(value) => scalar(value),
        Entry::Pair(_, _) => None,
    }
}

fn add_pattern(
    alloc: Global,
    place: u32,
    pattern: Option<&Text>,
    found: &mut Items<Include>,
) -> Result<(), NoMemory>
    ensures { IfOk result (λ _. found.new
        ≡ found.old ++ map (included place) (option_map (λ text. text.now) pattern.entry ∷ [])) }
{
    let pattern = match pattern {
        None => None,
        Some(text) => Some(text.copy(alloc)?),
    };
    found.push(Include { place, pattern })?;
    Ok(())
}

/// The first include of a file that reaches none of the LookML files.
pub fn reaches_nothing(
    alloc: Global,
    lookml: &[Text],
    file: &Text,
    includes: &[Include],
) -> Result<Option<FaultLine>, NoMemory>
    ensures { IfOk result (λ fault. fault ≡ first_in (reaches_nothing lookml.now file.now) includes.now) }
{
    for include in includes {
        if let Some(fault) = nothing_at(alloc, lookml, file, include)? {
            return Ok(Some(fault));
        }
    }
    Ok(None)
}

fn nothing_at(
    alloc: Global,
    lookml: &[Text],
    file: &Text,
    include: &Include,
) -> Result<Option<FaultLine>, NoMemory>
    ensures { IfOk result (λ fault. fault ≡ reaches_nothing lookml.now file.now include.now) }
{
    let pattern = pattern_for(alloc, file, &include.pattern)?;
    if matches_some(alloc, &pattern, lookml)? {
        return Ok(None);
    }
    let name = or_empty(&include.pattern);
    Ok(Some(line(alloc, "M1", file, include.place, name)?))
}

fn or_empty(pattern: &Option<Text>) -> &str
    ensures { result.now ≡ unwrap_or pattern.now [] }
{
    match pattern {
        None => "",
        Some(pattern) => pattern.as_str(),
    }
}
