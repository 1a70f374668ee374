ghost use Rattle.std.specs.Prelude.{◌≡◌, IfOk};
ghost use Rattle.lk_include.specs.Gathering.{file_line};

use lk_val::{FaultLine, NoMemory, Text};
use std::alloc::Global;

/// A fault of a file, at a place in it.
pub fn line(
    alloc: Global,
    code: &str,
    path: &Text,
    place: u32,
    name: &str,
) -> Result<FaultLine, NoMemory>
    ensures { IfOk result (λ line. line ≡ file_line code.now path.now place name.now) }
{
    Ok(FaultLine {
        code: Text::from_str(alloc, code)?,
        path: path.copy(alloc)?,
        place,
        name: Text::from_str(alloc, name)?,
        other: Text::new(alloc),
    })
}
