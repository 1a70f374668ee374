ghost use Rattle.std.specs.Prelude.{◌≡◌, ◌++◌, ◌∷◌, [], ℕ, List, IfOk, OnOk, None, Some, if◌then◌else◌, map};
ghost use Rattle.std.specs.Option.{option_or};
ghost use Rattle.lk_val.specs.Texts.{is_same_text};
ghost use Rattle.lk_overlay.specs.declared.kind.Kind.TheVariants as kind;
ghost use Rattle.lk_merge.specs.Objects.{own};
ghost use Rattle.lk_merge.specs.ByName.{HasOwn, found_at, own_at};

use crate::declaration::Declaration;
use lk_overlay::Kind;
use lk_val::{Items, NoMemory, Text};
use std::alloc::Global;
use std::collections::BTreeMap;

/// What the files declare and refine, in order of reading, to be found by kind and name.
#[derive(Drop)]
pub struct Declared<'a> {
    them: &'a [Declaration],
    views: BTreeMap<Text, Items<&'a Declaration>>,
    explores: BTreeMap<Text, Items<&'a Declaration>>,
    datagroups: BTreeMap<Text, Items<&'a Declaration>>,
    ghost has_views: { HasOwn them.now kind.View views },
    ghost has_explores: { HasOwn them.now kind.Explore explores },
    ghost has_datagroups: { HasOwn them.now kind.Datagroup datagroups },
}

impl<'a> Declared<'a> {
    /// The declarations and refinements with maps of their names, made in time n log n.
    pub fn new(alloc: Global, them: &'a [Declaration]) -> Result<Declared<'a>, NoMemory>
        ensures { IfOk result (λ made. made.them.now ≡ them.now) }
    {
        let views = own_by_name(alloc, them, Kind::View)?;
        let explores = own_by_name(alloc, them, Kind::Explore)?;
        let datagroups = own_by_name(alloc, them, Kind::Datagroup)?;
        Ok(Declared {
            them,
            views,
            explores,
            datagroups,
        })
    }

    /// All of them, in order of reading.
    pub fn as_slice(&self) -> &'a [Declaration]
        ensures { result.now ≡ self.now.them.now }
    {
        self.them
    }

    /// The declaration of an object and then its refinements, in order of reading.
    pub fn own(
        &self,
        alloc: Global,
        kind: Kind,
        name: &Text,
    ) -> Result<Vec<&'a Declaration>, NoMemory>
        ensures { IfOk result (λ ds. map (λ d. d.now) ds.items ≡ own self.now.them.now kind name.now) }
    {
        match kind {
            Kind::View => own_in(alloc, &self.views, name),
            Kind::Explore => own_in(alloc, &self.explores, name),
            Kind::Datagroup => own_in(alloc, &self.datagroups, name),
        }
    }
}

fn own_in<'a>(
    alloc: Global,
    them: &BTreeMap<Text, Items<&'a Declaration>>,
    name: &Text,
) -> Result<Vec<&'a Declaration>, NoMemory>
    ensures { IfOk result (λ ds. map (λ d. d.now) ds.items ≡ own_at them.now name.now) }
{
    match them.get(name) {
        Some(own) => same(alloc, own.as_slice()),
        None => Ok(Vec::new(alloc)),
    }
}

fn same<'a>(alloc: Global, own: &[&'a Declaration]) -> Result<Vec<&'a Declaration>, NoMemory>
    ensures { IfOk result (λ ds. map (λ d. d.now) ds.items ≡ map (λ d. d.now) own.now) }
{
    let mut ds = Vec::new(alloc);
    for d in own {
        ds.push(*d)?;
    }
    Ok(ds)
}

fn own_by_name<'a>(
    alloc: Global,
    all: &'a [Declaration],
    kind: Kind,
) -> Result<BTreeMap<Text, Items<&'a Declaration>>, NoMemory>
    ensures { IfOk result (HasOwn all.now kind) }
{
    let mut own = BTreeMap::new(alloc);
    for d in all {
        if !d.refines && d.kind == kind {
            add_declaration(alloc, &mut own, d)?;
        }
    }
    for refinement in all {
        if refinement.refines && refinement.kind == kind {
            add_refinement(alloc, &mut own, refinement)?;
        }
    }
    Ok(own)
}

// Adds the declaration of a name, unless the name has one.
fn add_declaration<'a>(
    alloc: Global,
    own: &mut BTreeMap<Text, Items<&'a Declaration>>,
    d: &'a Declaration,
) -> Result<(), NoMemory>
    ensures { OnOk result ((name : List ℕ) → found_at own.new name
        ≡ option_or (found_at own.old name) (if is_same_text d.now.name name then Some (d.now ∷ []) else None)) }
{
    if own.contains_key(&d.name) {
        return Ok(());
    }
    let mut found = Items::new(alloc);
    found.push(d)?;
    own.insert(d.name.copy(alloc)?, found)?;
    Ok(())
}

// Adds a refinement behind what a name has.
fn add_refinement<'a>(
    alloc: Global,
    own: &mut BTreeMap<Text, Items<&'a Declaration>>,
    d: &'a Declaration,
) -> Result<(), NoMemory>
    ensures { OnOk result ((name : List ℕ) → own_at own.new name
        ≡ own_at own.old name ++ (if is_same_text d.now.name name then d.now ∷ [] else [])) }
{
    match own.get_mut(&d.name) {
        Some(found) => {
            found.push(d)?;
            Ok(())
        }
        None => {
            let mut found = Items::new(alloc);
            found.push(d)?;
            own.insert(d.name.copy(alloc)?, found)?;
            Ok(())
        }
    }
}
