ghost use Rattle.std.specs.Prelude.{◌≡◌, ◌++◌, IfOk, map};
ghost use Rattle.lk_val.specs.Texts.{is_same_text};
ghost use Rattle.lk_params.specs.Parameters.{named};
ghost use Rattle.lk_params.specs.Picking.{firsts, last_given, with_new};
ghost use Rattle.lk_params.specs.Overlay.{names_in, overlaid};

use crate::parameters::named;
use lk_read::Item;
use lk_val::{Items, NoMemory, Text, is_among};
use std::alloc::Global;

/// Several blocks as one: each parameter as the last block that has it gives it, at the place of the first.
/// (Looker, LookML reference: extends)
pub fn overlaid(alloc: Global, blocks: &[Items<Item>]) -> Result<Items<Item>, NoMemory>
    ensures { IfOk result (λ items. items ≡ overlaid blocks.now) }
{
    let names = names_in(alloc, blocks)?;
    let mut items = Items::new(alloc);
    for name in names.as_slice() {
        items = joined(items, last_with(alloc, name.as_str(), blocks)?)?;
    }
    Ok(items)
}

// The parameters of a name in the last block that has it.
#[tactic(auto, using(crate::proofs::Steps::or_list_assoc))]
fn last_with(alloc: Global, name: &str, blocks: &[Items<Item>]) -> Result<Items<Item>, NoMemory>
    ensures { IfOk result (λ items. items ≡ last_given (map (named name.now) blocks.now)) }
{
    let mut last = Items::new(alloc);
    for block in blocks {
        let items = named(alloc, name, block.as_slice())?;
        if !items.is_empty() {
            last = items;
        }
    }
    Ok(last)
}

// The names of the parameters, each once, in the order of first standing.
fn names_in(alloc: Global, blocks: &[Items<Item>]) -> Result<Items<Text>, NoMemory>
    ensures { IfOk result (λ names. names ≡ names_in blocks.now) }
{
    let mut all = Items::new(alloc);
    for block in blocks {
        add_names(alloc, block.as_slice(), &mut all)?;
    }
    firsts(alloc, all.as_slice())
}

fn add_names(alloc: Global, items: &[Item], all: &mut Items<Text>) -> Result<(), NoMemory>
    ensures { IfOk result (λ _. all.new ≡ all.old ++ map (λ item. item.name) items.now) }
{
    for item in items {
        all.push(item.name.copy(alloc)?)?;
    }
    Ok(())
}

/// The texts, each once, in the order of first standing.
#[tactic(auto, using(crate::proofs::Steps::text_step, crate::proofs::Steps::text_none))]
pub fn firsts(alloc: Global, texts: &[Text]) -> Result<Items<Text>, NoMemory>
    ensures { IfOk result (λ once. once ≡ firsts is_same_text texts.now) }
{
    let mut once = Items::new(alloc);
    for text in texts {
        once = with_new(alloc, once, text)?;
    }
    Ok(once)
}

// The texts with one more, unless they have it.
fn with_new(alloc: Global, known: Items<Text>, text: &Text) -> Result<Items<Text>, NoMemory>
    ensures { IfOk result (λ with. with ≡ with_new is_same_text known text.now) }
{
    let mut known = known;
    if !is_among(text, known.as_slice()) {
        known.push(text.copy(alloc)?)?;
    }
    Ok(known)
}

/// Two lists as one.
pub fn joined<T: Drop>(items: Items<T>, more: Items<T>) -> Result<Items<T>, NoMemory>
    ensures { IfOk result (λ all. all ≡ items ++ more) }
{
    let mut all = items.into_vec();
    let mut rest = more.into_vec();
    all.append(&mut rest)?;
    Ok(Items::from_vec(all))
}
