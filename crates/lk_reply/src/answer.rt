ghost use Rattle.std.specs.Prelude.{◌≡◌, ◌++◌, IfOk, OnOk, codes, decimal, map};
ghost use Rattle.lk_csv.specs.Records.{record_text, records_text};
ghost use Rattle.lk_types.specs.Printing.{cell_text};
ghost use Rattle.lk_reply.specs.Answers.{answer_text, completeness, fields_of, name_of, shape_of, snapshot_line};

use lk_ask::Told;
use lk_csv::write_record;
use lk_types::{Explore, Pick, Shape, print_cell};
use lk_val::{Bytes, Cell, Items, NoMemory, Text};
use std::alloc::Global;

/// The answer to a query over an explore in CSV: the names that were asked for, a record for each line, and then the line
/// `# snapshot N, complete`, or `cut` where the answer has more lines. Dimensions print by their tiers and timeframes.
/// (RFC 4180; lookd)
#[tactic(auto, unfolding(crate::specs::Answers::answer_text, lk_csv::specs::Records::records_text))]
pub fn print_answer(
    alloc: Global,
    x: &Explore,
    told: &Told,
    snapshot: u64,
) -> Result<Bytes, NoMemory>
    ensures { IfOk result (λ text. text ≡ answer_text x.now told.now snapshot) }
{
    let picks = told.bound.picks.as_slice();
    let names = names_of(alloc, x, picks)?;
    let mut text = write_record(alloc, names.as_slice())?;
    append_lines(alloc, &mut text, x, picks, told.rows.as_slice())?;
    let line = snapshot_line(alloc, snapshot, told.complete)?;
    text.append(line.as_bytes())?;
    Ok(text)
}

fn names_of(alloc: Global, x: &Explore, picks: &[Pick]) -> Result<Items<Text>, NoMemory>
    ensures { IfOk result (λ names. names ≡ map (name_of x.now) picks.now) }
{
    let mut names = Items::new(alloc);
    for pick in picks {
        names.push(name_of(alloc, x, pick)?)?;
    }
    Ok(names)
}

// The name of a column; one that the explore doesn't have has none.
pub(crate) fn name_of(alloc: Global, x: &Explore, pick: &Pick) -> Result<Text, NoMemory>
    ensures { IfOk result (λ name. name ≡ name_of x.now pick.now) }
{
    match *pick {
        Pick::Dim(field) => match x.fields.as_slice().get(field as usize) {
            Some(field) => field.name.copy(alloc),
            None => Ok(Text::new(alloc)),
        },
        Pick::Mea(measure) => match x.measures.as_slice().get(measure as usize) {
            Some(measure) => measure.name.copy(alloc),
            None => Ok(Text::new(alloc)),
        },
    }
}

#[tactic(auto, unfolding(lk_csv::specs::Records::records_text))]
fn append_lines(
    alloc: Global,
    text: &mut Bytes,
    x: &Explore,
    picks: &[Pick],
    rows: &[Items<Cell>],
) -> Result<(), NoMemory>
    ensures { OnOk result (text.new ≡ text.old ++ records_text (map (fields_of x.now picks.now) rows.now)) }
{
    for row in rows {
        let fields = fields_of(alloc, x, picks, row.as_slice())?;
        let record = write_record(alloc, fields.as_slice())?;
        text.append(record.as_slice())?;
    }
    Ok(())
}

// The cells of a line as they print, each by its column.
fn fields_of(
    alloc: Global,
    x: &Explore,
    picks: &[Pick],
    cells: &[Cell],
) -> Result<Items<Text>, NoMemory>
    ensures { IfOk result (λ fields. fields ≡ fields_of x.now picks.now cells.now) }
{
    let mut fields = Items::new(alloc);
    let mut rest = cells;
    for pick in picks {
        match rest {
            [] => return Ok(fields),
            [cell, behind @ ..] => {
                fields.push(print_column(alloc, x, pick, cell)?)?;
                rest = behind;
            }
        }
    }
    Ok(fields)
}

fn print_column(alloc: Global, x: &Explore, pick: &Pick, cell: &Cell) -> Result<Text, NoMemory>
    ensures { IfOk result (λ text. text ≡ cell_text (shape_of x.now pick.now) cell.now) }
{
    match *pick {
        Pick::Dim(field) => match x.fields.as_slice().get(field as usize) {
            Some(field) => print_cell(alloc, cell, &field.shape),
            None => print_cell(alloc, cell, &Shape::Plain),
        },
        Pick::Mea(_) => print_cell(alloc, cell, &Shape::Plain),
    }
}

fn snapshot_line(alloc: Global, snapshot: u64, complete: bool) -> Result<Text, NoMemory>
    ensures { IfOk result (λ line. line ≡ snapshot_line snapshot complete) }
{
    print_snapshot(alloc, snapshot, completeness(complete))
}

fn print_snapshot(alloc: Global, snapshot: u64, completeness: &str) -> Result<Text, NoMemory>
    ensures { IfOk result (λ line.
        line ≡ codes "# snapshot " ++ decimal snapshot ++ codes ", " ++ completeness.now ++ codes "\n") }
{
    let line = format!(in alloc; "# snapshot {snapshot}, {completeness}\n")?;
    Ok(Text::from_string(line))
}

fn completeness(complete: bool) -> &'static str
    ensures { result.now ≡ completeness complete }
{
    if complete { "complete" } else { "cut" }
}
