ghost use Rattle.std.specs.Prelude.{◌≡◌, IfOk};
ghost use Rattle.lk_merge.specs.Objects.{bases_of};
ghost use Rattle.lk_merge.specs.Ranks.{rank_in, is_below, descends, do_descend};

use crate::by_name::Declared;
use crate::contributors::bases_of;
use lk_overlay::Kind;
use lk_val::{NoMemory, Text};
use std::alloc::Global;

/// Whether each name's number is above those of its bases.
pub fn do_descend(
    alloc: Global,
    all: &Declared<'_>,
    kind: Kind,
    names: &[Text],
    ranks: &[usize],
) -> Result<bool, NoMemory>
    ensures { IfOk result (λ so. so ≡ do_descend all.now.them.now kind names.now ranks.now names.now) }
{
    for name in names {
        if !descends(
            names,
            ranks,
            name,
            bases_of(alloc, all, kind, name)?.as_slice(),
        ) {
            return Ok(false);
        }
    }
    Ok(true)
}

/// Whether the name's number is above those of its bases.
pub fn descends(names: &[Text], ranks: &[usize], name: &Text, bases: &[Text]) -> bool
    ensures { result ≡ descends names.now ranks.now name.now bases.now }
{
    let rank = rank_in(names, ranks, name);
    for base in bases {
        if !is_below(rank_in(names, ranks, base), rank) {
            return false;
        }
    }
    true
}

fn is_below(rank: Option<usize>, other: Option<usize>) -> bool
    ensures { result ≡ is_below rank other }
{
    match rank {
        None => false,
        Some(rank) => match other {
            None => false,
            Some(other) => rank < other,
        },
    }
}

/// The number of a name.
pub fn rank_in(names: &[Text], ranks: &[usize], name: &Text) -> Option<usize>
    ensures { result ≡ rank_in names.now ranks.now name.now }
{
    let mut left = ranks;
    for other in names {
        let Some((rank, behind)) = left.split_first() else {
            return None;
        };
        if *other == *name {
            return Some(*rank);
        }
        left = behind;
    }
    None
}

/// A number for each name: how many bases stand one above the other under it. Where an object extends itself the numbers
/// say nothing.
pub fn ranks(
    alloc: Global,
    all: &Declared<'_>,
    kind: Kind,
    names: &[Text],
) -> Result<Vec<usize>, NoMemory> {
    let places = base_places(alloc, all, kind, names)?;
    let mut ranks = Vec::new(alloc);
    for _ in names {
        ranks.push(0)?;
    }
    for _ in 0..names.len() {
        if !raise(&mut ranks, places.as_slice()) {
            break;
        }
    }
    Ok(ranks)
}

// Puts each number above those of the bases, and says whether one rose.
fn raise(ranks: &mut Vec<usize>, places: &[Vec<usize>]) -> bool {
    let mut rose = false;
    for place in 0..ranks.len() {
        if place < places.len() {
            let rank = rank_above(ranks.as_slice(), places[place].as_slice());
            if ranks[place] < rank {
                ranks[place] = rank;
                rose = true;
            }
        }
    }
    rose
}

fn rank_above(ranks: &[usize], bases: &[usize]) -> usize {
    let mut above = 0;
    for base in bases {
        if *base < ranks.len() {
            above = above.max(ranks[*base].saturating_add(1));
        }
    }
    above
}

/// The places of each name's bases.
pub fn base_places(
    alloc: Global,
    all: &Declared<'_>,
    kind: Kind,
    names: &[Text],
) -> Result<Vec<Vec<usize>>, NoMemory> {
    let mut places = Vec::new(alloc);
    for name in names {
        let bases = bases_of(alloc, all, kind, name)?;
        places.push(places_of(alloc, bases.as_slice(), names)?)?;
    }
    Ok(places)
}

fn places_of(alloc: Global, texts: &[Text], names: &[Text]) -> Result<Vec<usize>, NoMemory> {
    let mut places = Vec::new(alloc);
    for text in texts {
        for place in 0..names.len() {
            if names[place] == *text {
                places.push(place)?;
            }
        }
    }
    Ok(places)
}
