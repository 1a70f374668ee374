ghost use Rattle.std.specs.Prelude.{◌≡◌, IfOk};
ghost use Rattle.lk_include.specs.Gathering.{file_line};
ghost use Rattle.lk_types.specs.Printing.{value_text};
ghost use Rattle.lk_seed.specs.Faults.{seed_fault};
ghost use Rattle.lk_seed.specs.Seeds.{data_path};

use lk_table::BatchFault;
use lk_types::{Shape, print_cell};
use lk_val::{Cell, FaultLine, ModelFault, NoMemory, Text, Value};
use std::alloc::Global;

/// The path of a table's data file, by the table's name.
pub(crate) fn data_path(alloc: Global, name: &Text) -> Result<Text, NoMemory>
    ensures { IfOk result (λ path. path ≡ data_path name.now) }
{
    let name = name.as_str();
    Ok(Text::from_string(format!(in alloc; "data/{name}.csv")?))
}

/// The fault of a table's data file, by the table's name: its place is the row, and its name the column or the printed key.
pub fn seed_fault(alloc: Global, name: &Text, fault: BatchFault) -> Result<ModelFault, NoMemory>
    ensures { IfOk result (λ told. told ≡ seed_fault (data_path name.now) fault) }
{
    let path = data_path(alloc, name)?;
    let line = match fault {
        BatchFault::L3 { row, column } => line(alloc, "L3", path, row, column)?,
        BatchFault::L4(key) => line(alloc, "L4", path, 0, printed(alloc, key)?)?,
        BatchFault::L5(row) => line(alloc, "L5", path, row, Text::new(alloc))?,
        BatchFault::NoMemory => return Ok(ModelFault::NoMemory),
    };
    Ok(ModelFault::Fault(line))
}

/// A fault of a file, with a name; its place is a row.
pub(crate) fn line(
    alloc: Global,
    code: &str,
    path: Text,
    row: u32,
    name: Text,
) -> Result<FaultLine, NoMemory>
    ensures { IfOk result (λ line. line ≡ file_line code.now path row name) }
{
    Ok(FaultLine {
        code: Text::from_str(alloc, code)?,
        path,
        place: row,
        name,
        other: Text::new(alloc),
    })
}

fn printed(alloc: Global, key: Value) -> Result<Text, NoMemory>
    ensures { IfOk result (λ text. text ≡ value_text key) }
{
    print_cell(alloc, &Cell::Value(key), &Shape::Plain)
}
