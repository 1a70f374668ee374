ghost use Rattle.std.specs.Prelude.{◌≡◌, ◌⊎◌, ℕ, List};
ghost use Rattle.lk_read.specs.Outline.{Outline};
ghost use Rattle.lk_read.specs.Grammar.{IsFile};
ghost use Rattle.lk_read.specs.Faults.{IsFaultOf};
ghost use Rattle.lk_read.specs.Outcome.{Outcome, IsOutcome};

use lk_val::NoMemory;

/// Why a text was not read, with the place of the fault. The text is read from the front.
#[derive(Clone, Copy, PartialEq, Eq)]
pub enum ReadFault {
    /// The text ends in a string, which begins here.
    R1(u32),
    /// The text ends in a block or a list, which begins here with its bracket.
    R2(u32),
    /// The text ends in code without `;;`; here is the name of its parameter.
    R3(u32),
    /// No text of the grammar has this byte here; or the text ends behind a name or a colon, and a value is missing.
    R4(u32),
    /// A block or a list begins here, and 32 are open.
    R5(u32),
    /// Want of memory.
    NoMemory,
}

impl From<NoMemory> for ReadFault {
    ghost use Rattle.std.specs.Prelude.{◌≡◌};
    ghost use Rattle.lk_read.specs.declared.read_fault.ReadFault.TheVariants as fault;

    ghost from_gives = { λ _ e. e ≡ fault.NoMemory };

    fn from(_: NoMemory) -> ReadFault {
        ReadFault::NoMemory
    }
}

/// Each text spells a tree or has a fault, never both, and it has one fault only. So a refused text has the fault that
/// is answered, and no other.
pub fn a_text_has_one_fault()
    ensures one { (most : ℕ) (text : List ℕ) (fault other : ReadFault)
        → IsFaultOf most text fault → IsFaultOf most text other → fault ≡ other }
    ensures unspelled { (most : ℕ) (text : List ℕ) (fault : ReadFault)
        → IsFaultOf most text fault → (tree : Outline) → IsFile most text tree → ⊥ }
    ensures some { (most : ℕ) (text : List ℕ)
        → ((tree : Outline) × IsFile most text tree) ⊎ ((fault : ReadFault) × IsFaultOf most text fault) }
{}

/// Each text has exactly one outcome: the tree that it spells, or its fault.
pub fn a_text_has_one_outcome()
    ensures one { (most : ℕ) (text : List ℕ) (outcome other : Outcome)
        → IsOutcome most text outcome → IsOutcome most text other → outcome ≡ other }
    ensures some { (most : ℕ) (text : List ℕ) → (outcome : Outcome) × IsOutcome most text outcome }
{}
