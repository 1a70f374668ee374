ghost use Rattle.std.specs.Prelude.{◌≡◌, IfOk, false, map};
ghost use Rattle.serde_json.specs.Data.{string};
ghost use Rattle.serde_json.specs.View.{view};
ghost use Rattle.serde_json.specs.Written.{compact_text, has_float};
ghost use Rattle.lk_types.specs.Printing.{cell_json};
ghost use Rattle.lk_reply.specs.Answers.{name_of, shape_of};
ghost use Rattle.lk_reply.specs.JsonAnswers.{answer_data, answer_json, cells_of, names_of, row_of, rows_of, text_or_null};

use crate::answer::name_of;
use lk_ask::Told;
use lk_types::{Explore, Pick, Shape, print_json};
use lk_val::{Bytes, Cell, Items, NoMemory, Text};
use serde_json::{Value, json};
use std::alloc::Global;

/// The answer to a query over an explore in compact JSON: `complete`, whether no line was cut; `fields`, the names that were
/// asked for; `rows`, a list of cells for each line, of which each is a text, or null; and `snapshot`. (RFC 8259; lookd)
#[tactic(auto, unfolding(crate::specs::JsonAnswers::answer_json))]
pub fn print_answer_json(
    alloc: Global,
    x: &Explore,
    told: &Told,
    snapshot: u64,
) -> Result<Bytes, NoMemory>
    ensures { IfOk result (λ text. text ≡ answer_json x.now told.now snapshot) }
{
    let value = answer_of(alloc, x, told, snapshot)?;
    print_value(alloc, &value)
}

fn print_value(alloc: Global, value: &Value) -> Result<Bytes, NoMemory>
    requires { has_float (view value.now) ≡ false }
    ensures { IfOk result (λ text. text ≡ compact_text (view value.now)) }
{
    let text = value.to_string(alloc)?;
    Ok(Bytes::from_slice(alloc, text.as_bytes())?)
}

fn answer_of(alloc: Global, x: &Explore, told: &Told, snapshot: u64) -> Result<Value, NoMemory>
    ensures { IfOk result (λ value. view value ≡ answer_data x.now told.now snapshot) }
{
    let picks = told.bound.picks.as_slice();
    Ok(json!(in alloc; {
            "complete": told.complete,
            "fields": names_of(alloc, x, picks)?,
            "rows": rows_of(alloc, x, picks, told.rows.as_slice())?,
            "snapshot": snapshot
        })?)
}

fn names_of(alloc: Global, x: &Explore, picks: &[Pick]) -> Result<Value, NoMemory>
    ensures { IfOk result (λ value. view value ≡ names_of x.now picks.now) }
{
    let mut names = Vec::new(alloc);
    for pick in picks {
        names.push(text_value(name_of(alloc, x, pick)?))?;
    }
    Ok(Value::Array(names))
}

fn text_value(text: Text) -> Value
    ensures { view result ≡ string text }
{
    Value::String(text.into_string())
}

fn rows_of(
    alloc: Global,
    x: &Explore,
    picks: &[Pick],
    lines: &[Items<Cell>],
) -> Result<Value, NoMemory>
    ensures { IfOk result (λ value. view value ≡ rows_of x.now picks.now lines.now) }
{
    let mut rows = Vec::new(alloc);
    for cells in lines {
        rows.push(row_of(alloc, x, picks, cells.as_slice())?)?;
    }
    Ok(Value::Array(rows))
}

fn row_of(alloc: Global, x: &Explore, picks: &[Pick], cells: &[Cell]) -> Result<Value, NoMemory>
    ensures { IfOk result (λ value. view value ≡ row_of x.now picks.now cells.now) }
{
    let cells = cells_of(alloc, x, picks, cells)?;
    Ok(Value::Array(cells))
}

// The cells of a line, each by its column.
fn cells_of(
    alloc: Global,
    x: &Explore,
    picks: &[Pick],
    cells: &[Cell],
) -> Result<Vec<Value>, NoMemory>
    ensures { IfOk result (λ values. map view values.items ≡ cells_of x.now picks.now cells.now) }
{
    let mut values = Vec::new(alloc);
    let mut rest = cells;
    for pick in picks {
        match rest {
            [] => return Ok(values),
            [cell, behind @ ..] => {
                values.push(cell_value(alloc, x, pick, cell)?)?;
                rest = behind;
            }
        }
    }
    Ok(values)
}

fn cell_value(alloc: Global, x: &Explore, pick: &Pick, cell: &Cell) -> Result<Value, NoMemory>
    ensures { IfOk result (λ value. view value ≡ text_or_null (cell_json (shape_of x.now pick.now) cell.now)) }
{
    match print_column(alloc, x, pick, cell)? {
        Some(text) => Ok(text_value(text)),
        None => Ok(Value::Null),
    }
}

fn print_column(
    alloc: Global,
    x: &Explore,
    pick: &Pick,
    cell: &Cell,
) -> Result<Option<Text>, NoMemory>
    ensures { IfOk result (λ text. text ≡ cell_json (shape_of x.now pick.now) cell.now) }
{
    match *pick {
        Pick::Dim(field) => match x.fields.as_slice().get(field as usize) {
            Some(field) => print_json(alloc, cell, &field.shape),
            None => print_json(alloc, cell, &Shape::Plain),
        },
        Pick::Mea(_) => print_json(alloc, cell, &Shape::Plain),
    }
}
