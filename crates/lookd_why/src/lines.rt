// What is told of the aggregate tables of a query's explore.

ghost use Rattle.std.specs.Prelude.{◌≡◌, ◌++◌, IfOk, OnOk};
ghost use Rattle.lk_semantics.specs.Derived.{explore_at};
ghost use Rattle.lk_semantics.specs.Resolved.{IsInModel, IsResolved};
ghost use Rattle.lk_route.specs.Ready.{IsReadyFor};
ghost use Rattle.lookd_why.specs.Lines.{answered_line, lines_of, source_of, table_line, text_of, word_of};

use lk_rollup::{explore_of, rollup_of};
use lk_route::{Point, Ready};
use lk_types::{Bound, Explore, Model, Rollup};
use lk_val::{Bytes, NoMemory};
use std::alloc::Global;

/// A line for each aggregate table of the query's explore, in the order in which the explore declares them: `NAME: fits`, or the word
/// of the first point by which it does not fit, as `NAME: joins`; and then a line on what answers the query. (Looker, LookML
/// reference: aggregate_table; lookd)
#[tactic(auto, unfolding(crate::specs::Lines::text_of))]
pub fn print_lines(alloc: Global, m: &Model, ready: &Ready, b: &Bound) -> Result<Bytes, NoMemory>
    requires model { IsResolved m.now }
    requires ready { IsReadyFor m.now ready.now }
    requires query { IsInModel m.now b.now }
    ensures { IfOk result (λ text. text ≡ text_of m.now b.now) }
{
    let mut text = Bytes::new(alloc);
    append_tables(&mut text, m, ready, b)?;
    append_answered(&mut text, explore_of(m, b.explore), ready.chosen(m, b))?;
    Ok(text)
}

fn append_tables(text: &mut Bytes, m: &Model, ready: &Ready, b: &Bound) -> Result<(), NoMemory>
    requires model { IsResolved m.now }
    requires ready { IsReadyFor m.now ready.now }
    requires query { IsInModel m.now b.now }
    ensures { OnOk result (text.new ≡ text.old ++ lines_of (explore_at m.now b.now.explore) b.now) }
{
    let x = explore_of(m, b.explore);
    for r in 0..x.rollups.len() {
        let unmet = ready.first_unmet(m, b, r as u32);
        append_table(text, rollup_of(x, r as u32), unmet)?;
    }
    Ok(())
}

// The line of an aggregate table, by the first point that does not hold of it.
#[tactic(auto, unfolding(crate::specs::Lines::table_line))]
fn append_table(text: &mut Bytes, rollup: &Rollup, unmet: Option<Point>) -> Result<(), NoMemory>
    ensures { OnOk result (text.new ≡ text.old ++ table_line rollup.now.name unmet) }
{
    text.append(rollup.name.as_bytes())?;
    text.append(b": ")?;
    text.append(word_of(unmet).as_bytes())?;
    text.append(b"\n")
}

// The word of a point that does not hold; `fits` where there is none.
fn word_of(unmet: Option<Point>) -> &'static str
    ensures { result.now ≡ word_of unmet }
{
    match unmet {
        None => "fits",
        Some(Point::Joins) => "joins",
        Some(Point::Fields) => "dimensions",
        Some(Point::Filters) => "filters",
        Some(Point::Measures) => "measures",
        Some(Point::Groups) => "groups",
    }
}

#[tactic(auto, unfolding(crate::specs::Lines::answered_line))]
fn append_answered(text: &mut Bytes, x: &Explore, chosen: Option<u32>) -> Result<(), NoMemory>
    ensures { OnOk result (text.new ≡ text.old ++ answered_line x.now chosen) }
{
    text.append(b"answered from ")?;
    text.append(source_of(x, chosen).as_bytes())?;
    text.append(b"\n")
}

// The name of the aggregate table that is chosen; one that is not there has none.
fn source_of(x: &Explore, chosen: Option<u32>) -> &str
    ensures { result.now ≡ source_of x.now chosen }
{
    match chosen {
        None => "the tables",
        Some(r) => match x.rollups.as_slice().get(r as usize) {
            Some(rollup) => rollup.name.as_str(),
            None => "",
        },
    }
}
