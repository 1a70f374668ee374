ghost use Rattle.std.specs.Prelude.{◌≡◌, ℕ, List};
ghost use Rattle.lk_read.specs.Outcome.{Outcome, IsOutcome};
ghost use Rattle.lk_include.specs.Reading.{reading_of};

use lk_read::Tree;
use lk_val::{Bytes, FaultLine, Items, NoMemory, Text};

/// The files of a project, as they are read: the bytes of `schema.csv` and `users.csv`, and the LookML files in order of
/// reading, each with its path.
#[derive(Drop)]
pub struct Project {
    pub schema: Bytes,
    pub users: Bytes,
    pub trees: Items<(Text, Tree)>,
}

/// Why a project was not gathered.
#[derive(Drop)]
pub enum ProjectFault {
    /// The first fault of its files.
    Model(FaultLine),
    /// A call of the files failed; their count of faults rose.
    Failed,
    /// Want of memory.
    NoMemory,
}

impl From<NoMemory> for ProjectFault {
    ghost use Rattle.std.specs.Prelude.{◌≡◌};
    ghost use Rattle.lk_include.specs.declared.project.ProjectFault.TheVariants as fault;

    ghost from_gives = { λ _ e. e ≡ fault.NoMemory };

    fn from(_: NoMemory) -> ProjectFault {
        ProjectFault::NoMemory
    }
}

/// What the bytes of a file read as is their one outcome: the tree that they spell, or their fault. A law: it computes
/// nothing.
pub fn texts_have_readings()
    ensures is { (text : List ℕ) → IsOutcome 32 text (reading_of text) }
    ensures only { (text : List ℕ) (outcome : Outcome) → IsOutcome 32 text outcome → reading_of text ≡ outcome }
{}
