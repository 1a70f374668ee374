ghost use Rattle.std.specs.Prelude.{◌≡◌, IfOk, option_map};
ghost use Rattle.std.specs.List.{fold};
ghost use Rattle.lk_params.specs.Findings.{sooner};
ghost use Rattle.lk_written.specs.Values.{is_wrong_at};
ghost use Rattle.lk_explore.specs.Values.{are_no_words, block_at, is_no_text, plain_items, view_or, words_at, words_in, wrong_at};

use lk_params::{Findings, Order, last_named, parameters_of, scalar, words};
use lk_read::{Item, Node};
use lk_val::{Items, NoMemory, Text};
use lk_written::add_wrong;
use std::alloc::Global;

// The words of a list; none of another value.
pub(crate) fn words_in(alloc: Global, value: &Node) -> Result<Items<Text>, NoMemory>
    ensures { IfOk result (λ texts. texts ≡ words_in value.now) }
{
    match words(alloc, value)? {
        None => Ok(Items::new(alloc)),
        Some(texts) => Ok(texts),
    }
}

// The words of the list of this name that counts.
pub(crate) fn words_at(alloc: Global, name: &str, items: &[Item]) -> Result<Items<Text>, NoMemory>
    ensures { IfOk result (λ texts. texts ≡ words_at name.now items.now) }
{
    match last_named(name, items) {
        None => Ok(Items::new(alloc)),
        Some(item) => words_in(alloc, &item.value),
    }
}

// The view that `from` names, and without it this one; none where its value is no word or string.
pub(crate) fn view_or(alloc: Global, own: &str, items: &[Item]) -> Result<Option<Text>, NoMemory>
    ensures { IfOk result (λ name. name ≡ view_or own.now items.now) }
{
    match last_named("from", items) {
        None => Ok(Some(Text::from_str(alloc, own)?)),
        Some(item) => match scalar(&item.value) {
            None => Ok(None),
            Some(text) => Ok(Some(text.copy(alloc)?)),
        },
    }
}

// The parameters of a block without a name.
pub(crate) fn plain_items(value: &Node) -> &[Item]
    ensures { result.now ≡ plain_items value.now }
{
    match value {
        Node::Block(None, inner) => parameters_of(inner),
        _ => &[],
    }
}

// The parameters of the block of this name that counts.
pub(crate) fn block_at<'a>(name: &str, items: &'a [Item]) -> &'a [Item]
    ensures { result.now ≡ block_at name.now items.now }
{
    match last_named(name, items) {
        None => &[],
        Some(item) => plain_items(&item.value),
    }
}

pub(crate) fn is_no_text(value: &Node) -> bool
    ensures { result ≡ is_no_text value.now }
{
    scalar(value).is_none()
}

pub(crate) fn are_no_words(alloc: Global, value: &Node) -> Result<bool, NoMemory>
    ensures { IfOk result (λ so. so ≡ are_no_words value.now) }
{
    Ok(words(alloc, value)?.is_none())
}

// Adds that a parameter of the object has a value outside the profile, where the test says so.
pub(crate) fn add_wrong_at(
    alloc: Global,
    object: &str,
    parameter: &str,
    so: bool,
    findings: &mut Findings,
) -> Result<(), NoMemory>
    ensures { IfOk result (λ _. findings.new.first
        ≡ fold sooner findings.old.first (wrong_at object.now parameter.now so)) }
{
    add_wrong(alloc, Order::Object, object, parameter, so, findings)
}

// The parameter is given, and its value is no word or string.
pub(crate) fn has_no_text(name: &str, items: &[Item]) -> bool
    ensures { result ≡ is_wrong_at is_no_text name.now items.now }
{
    match last_named(name, items) {
        None => false,
        Some(item) => is_no_text(&item.value),
    }
}
