ghost use Rattle.std.specs.Prelude.{◌≡◌, ◌++◌, IfOk, OnOk, map};

use lk_types::{Explore, Field, Measure};
use lk_val::{Items, NoMemory, Text};
use std::alloc::Global;

/// The names of what a query may ask an explore for: its dimensions with their timeframes, and behind them its measures, each in
/// the model's order. (lookd)
pub fn fields_of(alloc: Global, x: &Explore) -> Result<Items<Text>, NoMemory>
    ensures { IfOk result (λ names. names ≡ map (λ field. field.name) x.now.fields ++ map (λ measure. measure.name) x.now.measures) }
{
    let mut names = field_names(alloc, x.fields.as_slice())?;
    add_measure_names(alloc, x.measures.as_slice(), &mut names)?;
    Ok(names)
}

fn field_names(alloc: Global, fields: &[Field]) -> Result<Items<Text>, NoMemory>
    ensures { IfOk result (λ names. names ≡ map (λ field. field.name) fields.now) }
{
    let mut names = Items::new(alloc);
    for field in fields {
        names.push(field.name.copy(alloc)?)?;
    }
    Ok(names)
}

fn add_measure_names(
    alloc: Global,
    measures: &[Measure],
    names: &mut Items<Text>,
) -> Result<(), NoMemory>
    ensures { OnOk result (names.new ≡ names.old ++ map (λ measure. measure.name) measures.now) }
{
    for measure in measures {
        names.push(measure.name.copy(alloc)?)?;
    }
    Ok(())
}
