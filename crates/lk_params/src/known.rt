ghost use Rattle.std.specs.Prelude.{◌≡◌, ◌&&◌, IfOk, option_map};
ghost use Rattle.lk_params.specs.Values.{scalar};
ghost use Rattle.lk_val.specs.Texts.{is_same_text};
ghost use Rattle.std.specs.List.{fold, list_any};
ghost use Rattle.lk_params.specs.Known.{is_known, is_single, is_child, has_many, stands_again, is_monday, is_other_week, has_liquid, holds_liquid, begins_liquid, parameter_of, if_so, block_findings, item_findings};
ghost use Rattle.lk_params.specs.Findings.{sooner, finding, named_line};

use crate::finding::{Finding, Findings};
use crate::number::{Number, Order};
use crate::owner::{Owner, has_effect, is_display};
use crate::values::scalar;
use lk_read::{Item, Node};
use lk_val::NoMemory;
use std::alloc::Global;

/// The faults of a block by itself: parameters that may not stand there or not again, a week that begins with another
/// day than Monday, and Liquid in code. `top` is the parameter of the object in which the block stands; without it each
/// parameter counts as itself.
pub fn find_unknown(
    alloc: Global,
    order: Order,
    owner: Owner,
    object: &str,
    top: Option<&str>,
    items: &[Item],
    findings: &mut Findings,
) -> Result<(), NoMemory>
    ensures { IfOk result (λ _. findings.new.first ≡ fold sooner findings.old.first
        (block_findings order owner object.now (option_map (λ t. t.now) top.entry) items.now)) }
{
    for place in 0..items.len() {
        find_in_item(
            alloc,
            order,
            owner,
            object,
            top,
            &items[..place],
            &items[place],
            findings,
        )?;
    }
    Ok(())
}

/// The faults of one parameter of a block by itself, given those before it: what `find_unknown` finds there. For blocks in
/// which what the values say has to be found in the same order.
pub fn find_in_item(
    alloc: Global,
    order: Order,
    owner: Owner,
    object: &str,
    top: Option<&str>,
    before: &[Item],
    item: &Item,
    findings: &mut Findings,
) -> Result<(), NoMemory>
    ensures { IfOk result (λ _. findings.new.first ≡ fold sooner findings.old.first
        (item_findings order owner object.now (option_map (λ t. t.now) top.entry) before.now item.now)) }
{
    let name = item.name.as_str();
    let at = parameter_of(top, item);
    add_if(
        alloc,
        !is_known(owner, item) || stands_again(owner, before, item),
        order,
        Number::N1,
        at,
        object,
        name,
        findings,
    )?;
    add_if(
        alloc,
        is_display(owner, name) && is_other_week(item),
        order,
        Number::N14,
        at,
        object,
        name,
        findings,
    )?;
    add_if(
        alloc,
        has_effect(owner, name) && has_liquid(item),
        order,
        Number::N11,
        at,
        object,
        "",
        findings,
    )
}

/// Adds a fault without a place, where the test says so.
pub fn add_if(
    alloc: Global,
    so: bool,
    order: Order,
    number: Number,
    at: &str,
    object: &str,
    other: &str,
    findings: &mut Findings,
) -> Result<(), NoMemory>
    ensures { IfOk result (λ _. findings.new.first ≡ fold sooner findings.old.first
        (if_so so (finding order number at.now (named_line number object.now other.now)))) }
{
    if so {
        findings.add(Finding::new(alloc, order, number, at, object, other)?);
    }
    Ok(())
}

fn parameter_of<'a>(top: Option<&'a str>, item: &'a Item) -> &'a str
    ensures { result.now ≡ parameter_of (option_map (λ t. t.now) top.entry) item.now }
{
    match top {
        None => item.name.as_str(),
        Some(top) => top,
    }
}

fn is_other_week(item: &Item) -> bool
    ensures { result ≡ is_other_week item.now }
{
    item.name.as_str() == "week_start_day" && !is_monday(&item.value)
}

fn is_monday(value: &Node) -> bool
    ensures { result ≡ is_monday (scalar value.now) }
{
    match scalar(value) {
        None => false,
        Some(day) => day.as_str() == "monday",
    }
}

fn has_liquid(item: &Item) -> bool
    ensures { result ≡ has_liquid item.now }
{
    match &item.value {
        Node::Code(text) => item.name.as_str() != "sql_always_where"
            && holds_liquid(text.as_bytes()),
        _ => false,
    }
}

/// Whether Liquid begins somewhere in the text: `{%` or `{{`.
pub fn holds_liquid(text: &[u8]) -> bool
    ensures { result ≡ holds_liquid text.now }
{
    for place in 0..text.len() {
        if begins_liquid(&text[place..]) {
            return true;
        }
    }
    false
}

fn begins_liquid(text: &[u8]) -> bool
    ensures { result ≡ begins_liquid text.now }
{
    match text {
        [a, b, ..] => *a == b'{' && (*b == b'%' || *b == b'{'),
        _ => false,
    }
}

fn is_known(owner: Owner, item: &Item) -> bool
    ensures { result ≡ is_known owner item.now }
{
    has_effect(owner, item.name.as_str()) || is_display(owner, item.name.as_str())
}

// Whether a parameter that may stand once stands behind another of its name.
fn stands_again(owner: Owner, before: &[Item], item: &Item) -> bool
    ensures { result ≡ stands_again owner before.now item.now }
{
    is_single(owner, item) && stands_among(owner, before, item)
}

// Whether one of its name that may stand once is among some.
fn stands_among(owner: Owner, items: &[Item], item: &Item) -> bool
    ensures { result ≡ list_any (λ other. is_single owner other && is_same_text other.name item.now.name) items.now }
{
    items
        .iter()
        .any(|other| is_single(owner, other) && other.name == item.name)
}

// Whether it may stand only once in its block.
fn is_single(owner: Owner, item: &Item) -> bool
    ensures { result ≡ is_single owner item.now }
{
    let name = item.name.as_str();
    !is_display(owner, name)
        && !(name == "include" || name == "access_filter" || name == "filters")
        && !is_child(owner, item)
}

// Whether it is a block with a name of its own, of a kind of which a block may have many.
fn is_child(owner: Owner, item: &Item) -> bool
    ensures { result ≡ is_child owner item.now }
{
    match &item.value {
        Node::Block(Some(_), _) => has_many(owner, item.name.as_str()),
        _ => false,
    }
}

fn has_many(owner: Owner, name: &str) -> bool
    ensures { result ≡ has_many owner name.now }
{
    match owner {
        Owner::File => name == "view" || name == "explore" || name == "datagroup",
        Owner::View => name == "dimension" || name == "dimension_group" || name == "measure",
        Owner::Explore => name == "join" || name == "aggregate_table",
        Owner::ExploreSource => name == "column",
        _ => false,
    }
}
