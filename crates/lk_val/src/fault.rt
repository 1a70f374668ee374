ghost use Rattle.std.specs.Prelude.{◌≡◌, IfOk};
ghost use Rattle.lk_val.specs.Faults.{fault_text, part_text};

use crate::memory::NoMemory;
use crate::text::Text;
use std::alloc::Global;

/// A fault of a project's files: its code, the file, the place in it, and two names. A part that doesn't apply
/// is empty, and a place that doesn't apply is 0.
#[derive(Drop)]
pub struct FaultLine {
    pub code: Text,
    pub path: Text,
    pub place: u32,
    pub name: Text,
    pub other: Text,
}

/// Why a model was not read: its first fault, or want of memory.
#[derive(Drop)]
pub enum ModelFault {
    /// The first fault.
    Fault(FaultLine),
    /// Want of memory.
    NoMemory,
}

impl From<NoMemory> for ModelFault {
    ghost use Rattle.std.specs.Prelude.{◌≡◌};
    ghost use Rattle.lk_val.specs.declared.fault.ModelFault.TheVariants as fault;

    ghost from_gives = { λ _ e. e ≡ fault.NoMemory };

    fn from(_: NoMemory) -> ModelFault {
        ModelFault::NoMemory
    }
}

impl FaultLine {
    /// The line that is printed, with its line feed. An empty part prints as `-`.
    pub fn print(&self, alloc: Global) -> Result<Text, NoMemory>
        ensures { IfOk result (λ text. text ≡ fault_text self.now) }
    {
        let code = part_of(&self.code);
        let path = part_of(&self.path);
        let place = self.place;
        let name = part_of(&self.name);
        let other = part_of(&self.other);
        Ok(Text::from_string(format!(in alloc; "{code} {path} {place} {name} {other}\n")?))
    }
}

fn part_of(part: &Text) -> &str
    ensures { result.now ≡ part_text part.now }
{
    if part.is_empty() { "-" } else { part.as_str() }
}
