ghost use Rattle.std.specs.Prelude.{◌≡◌, ◌<◌, ◌≤◌, ◌++◌, ◌∷◌, [], length, OnOk, OnErr};
ghost use Rattle.std.specs.List.{slice_index_or, slice_range};
ghost use Rattle.lk_region.specs.Regions.{text_at};

use lk_val::NoMemory;
use std::alloc::Global;
use std::marker::Model;

// Texts one behind the other in one buffer. Clauses see them as their list.
#[derive(Drop)]
pub(crate) struct Texts {
    bytes: Vec<u8>,
    // Where each text ends. It begins where the one before it ends.
    ends: Vec<usize>,
}

impl Model for Texts {
    ghost use Rattle.std.specs.Prelude.{List, ℕ, length};
    ghost use Rattle.lk_region.specs.Cuts.{cut, IsCut};

    ghost Value = { List (List ℕ) };

    ghost view = { λ texts. cut 0 texts.ends.items texts.bytes.items };

    ghost invariant = { λ texts. IsCut 0 texts.ends.items (length texts.bytes.items) };
}

impl Texts {
    // No texts, which take no memory.
    pub(crate) fn new(alloc: Global) -> Texts
        ensures { result ≡ [] }
    {
        Texts {
            bytes: Vec::new(alloc),
            ends: Vec::new(alloc),
        }
    }

    // The number of texts.
    #[tactic(auto, using(crate::proofs::CutLaws::cut_length))]
    pub(crate) fn len(&self) -> usize
        ensures { result ≡ length self.now }
    {
        self.ends.len()
    }

    // One text.
    #[tactic(auto, using(crate::proofs::CutLaws::in_ends))]
    pub(crate) fn get(&self, number: usize) -> &[u8]
        requires { number < length self.now }
        ensures { result.now ≡ text_at self.now number }
    {
        let start = start_of(&self.ends, number);
        part(&self.bytes, start, self.ends[number])
    }

    // Adds a text at the end; after an error the texts are as before.
    pub(crate) fn push(&mut self, text: &[u8]) -> Result<(), NoMemory>
        ensures ok { OnOk result (self.new ≡ self.old ++ text.now ∷ []) }
        ensures err { OnErr result (self.new ≡ self.old) }
    {
        self.ends.reserve(1)?;
        self.bytes.extend_from_slice(text)?;
        self.ends.push_reserved(self.bytes.len());
        Ok(())
    }

    // Gives back the memory that no text takes.
    pub(crate) fn shrink(&mut self)
        ensures { self.new ≡ self.old }
    {
        self.bytes.shrink_to_fit();
        self.ends.shrink_to_fit();
    }

    // Removes every text, and keeps the memory.
    pub(crate) fn clear(&mut self)
        ensures { self.new ≡ [] }
    {
        self.bytes.clear();
        self.ends.clear();
    }
}

// Where a text begins.
fn start_of(ends: &[usize], number: usize) -> usize
    requires { number < length ends.now }
    ensures { result ≡ slice_index_or (0 ∷ ends.now) number 0 }
{
    if number == 0 { 0 } else { ends[number - 1] }
}

// The bytes between two places.
fn part(bytes: &[u8], start: usize, end: usize) -> &[u8]
    requires ordered { start ≤ end }
    requires within { end ≤ length bytes.now }
    ensures { result.now ≡ slice_range bytes.now start end }
{
    &bytes[start..end]
}
