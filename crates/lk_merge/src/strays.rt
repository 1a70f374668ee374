ghost use Rattle.std.specs.Prelude.{◌≡◌, IfOk};
ghost use Rattle.std.specs.List.{fold, flat_map};
ghost use Rattle.lk_params.specs.Findings.{sooner};
ghost use Rattle.lk_merge.specs.Declarations.{has_plus};
ghost use Rattle.lk_merge.specs.Strays.{is_include, is_object, is_wrong, wrong_findings, stray_in, stray_of};

use lk_params::{Findings, Number, Order, Owner, add_if, find_unknown, has_effect, parameters_of};
use lk_read::{Item, Node, Tree};
use lk_val::{FaultLine, NoMemory, Text};
use std::alloc::Global;

/// The first parameter of a file that may not stand there, or not again, or that has a wrong value.
pub fn stray_of(alloc: Global, files: &[(Text, Tree)]) -> Result<Option<FaultLine>, NoMemory>
    ensures { IfOk result (λ fault. fault ≡ stray_of files.now) }
{
    for file in files {
        if let Some(line) = stray_in(alloc, &file.0, &file.1)? {
            return Ok(Some(line));
        }
    }
    Ok(None)
}

#[tactic(auto, using(crate::proofs::Steps::fold_both))]
fn stray_in(alloc: Global, path: &Text, tree: &Tree) -> Result<Option<FaultLine>, NoMemory>
    ensures { IfOk result (λ fault. fault ≡ stray_in (path.now, tree.now)) }
{
    let items = parameters_of(tree);
    let path = path.as_str();
    let mut findings = Findings::new();
    find_unknown(
        alloc,
        Order::Object,
        Owner::File,
        path,
        None,
        items,
        &mut findings,
    )?;
    find_wrong(alloc, path, items, &mut findings)?;
    Ok(findings.into_line())
}

fn find_wrong(
    alloc: Global,
    path: &str,
    items: &[Item],
    findings: &mut Findings,
) -> Result<(), NoMemory>
    ensures { IfOk result (λ _. findings.new.first
        ≡ fold sooner findings.old.first (flat_map (wrong_findings path.now) items.now)) }
{
    for item in items {
        let name = item.name.as_str();
        add_if(
            alloc,
            is_wrong(item),
            Order::Object,
            Number::N14,
            name,
            path,
            name,
            findings,
        )?;
    }
    Ok(())
}

fn is_wrong(item: &Item) -> bool
    ensures { result ≡ is_wrong item.now }
{
    let name = item.name.as_str();
    if name == "include" {
        !is_include(&item.value)
    } else {
        has_effect(Owner::File, name) && !is_object(name, &item.value)
    }
}

fn is_include(value: &Node) -> bool
    ensures { result ≡ is_include value.now }
{
    match value {
        Node::Word(_) | Node::Quoted(_) | Node::List(_) => true,
        Node::Block(_, _) | Node::Code(_) => false,
    }
}

fn is_object(name: &str, value: &Node) -> bool
    ensures { result ≡ is_object name.now value.now }
{
    match value {
        Node::Block(Some(title), _) => !(name == "datagroup" && has_plus(title.as_bytes())),
        _ => false,
    }
}

fn has_plus(title: &[u8]) -> bool
    ensures { result ≡ has_plus title.now }
{
    match title {
        [first, ..] => *first == b'+',
        [] => false,
    }
}
