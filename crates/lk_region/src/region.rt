ghost use Rattle.std.specs.Prelude.{◌≡◌, ◌<◌, false, length, [], IfOk, OnOk, OnErr, IfSome, IfNone};
ghost use Rattle.std.specs.List.{list_any};
ghost use Rattle.lk_val.specs.Texts.{is_same_text};
ghost use Rattle.lk_region.specs.Regions.{text_at, with_text, HasText, KeepsTexts, AreExact};

use crate::hash::hash_of;
use crate::mark::Mark;
use crate::sealed::SealedRegion;
use crate::texts::Texts;
use lk_val::NoMemory;
use std::alloc::Global;
use std::collections::HashMap;
use std::marker::Model;

/// Interned texts: each is kept once, and its mark is its number. Clauses see a region as the list of its
/// texts, in which none stands twice. Only `intern` takes memory. (lookd)
#[derive(Drop)]
pub struct Region {
    texts: Texts,
    // For each hash, the number of the last text that has it.
    latest: HashMap<u64, usize>,
    // For each text, the number of the one before it that has the same hash.
    earlier: Vec<Option<usize>>,
}

impl Model for Region {
    ghost use Rattle.std.specs.Prelude.{List, ℕ};
    ghost use Rattle.lk_region.specs.Regions.{AreOnce};
    ghost use Rattle.lk_region.specs.Chains.{IsChained};

    ghost Value = { List (List ℕ) };

    ghost view = { λ region. region.texts };

    ghost invariant = { λ region. AreOnce region.texts × IsChained region.texts region.latest region.earlier.items };
}

impl Region {
    /// A region without texts.
    #[tactic(auto, using(crate::proofs::RegionLaws::none_once))]
    pub fn new(alloc: Global) -> Region
        ensures { result ≡ [] }
    {
        Region {
            texts: Texts::new(alloc),
            latest: HashMap::new(alloc),
            earlier: Vec::new(alloc),
        }
    }

    /// The mark of a text: its number, counted from 0. A new text comes behind the others, whose marks stay, and
    /// a text that is there keeps its mark.
    #[tactic(auto, using(crate::proofs::RegionLaws::text_stays, crate::proofs::RegionLaws::text_comes, crate::proofs::RegionLaws::text_last, crate::proofs::RegionLaws::same_kept, crate::proofs::RegionLaws::added_kept))]
    pub fn intern(&mut self, text: &[u8]) -> Result<Mark, NoMemory>
        ensures texts { OnOk result (self.new ≡ with_text text.now self.old) }
        ensures mark { IfOk result (λ mark. HasText self.new mark.0 text.now) }
        ensures kept { KeepsTexts self.old self.new }
        ensures err { OnErr result (self.new ≡ self.old) }
    {
        if let Some(number) = self.find(text) {
            return Ok(Mark(number as u64));
        }
        self.earlier.reserve(1)?;
        self.latest.reserve(1)?;
        let number = self.texts.len();
        self.texts.push(text)?;
        // Room was made for both: from here on nothing fails.
        let earlier = self.latest.insert(hash_of(text), number)?;
        self.earlier.push_reserved(earlier);
        Ok(Mark(number as u64))
    }

    /// The text of a mark.
    pub fn text(&self, m: Mark) -> &[u8]
        requires { m.0 < length self.now }
        ensures { result.now ≡ text_at self.now m.0 }
    {
        self.texts.get(m.0 as usize)
    }

    /// The number of texts.
    pub fn len(&self) -> u64
        ensures { result ≡ length self.now }
    {
        self.texts.len() as u64
    }

    /// Forgets every text, so that no mark of before has one. The memory is kept for the next texts.
    #[tactic(auto, using(crate::proofs::RegionLaws::none_once))]
    pub fn reset(&mut self)
        ensures { self.new ≡ [] }
    {
        self.texts.clear();
        self.latest.clear();
        self.earlier.clear();
    }

    /// The texts alone. What it takes to find the mark of a text is given back.
    pub fn sealed(self) -> SealedRegion
        ensures { result ≡ self }
    {
        let Region {
            mut texts,
            latest: _,
            earlier: _,
        } = self;
        texts.shrink();
        SealedRegion { texts }
    }

    // The number of a text, where the region has it.
    #[tactic(auto, using(crate::proofs::RegionLaws::equal_texts))]
    fn find(&self, text: &[u8]) -> Option<usize>
        ensures found { IfSome result (λ number. HasText self.now number text.now) }
        ensures absent { IfNone result (list_any (is_same_text text.now) self.now ≡ false) }
    {
        let mut candidate = self.latest.get(&hash_of(text)).copied();
        while let Some(number) = candidate {
            if text == self.texts.get(number) {
                return Some(number);
            }
            candidate = self.earlier[number];
        }
        None
    }
}

/// Two marks of a region are equal exactly where their texts are. A law: it computes nothing.
#[tactic(auto, using(crate::proofs::RegionLaws::once_exact))]
pub fn equal_marks_are_equal_texts(region: &Region)
    ensures { AreExact region.now }
{
    let _texts = &region.texts;
}
