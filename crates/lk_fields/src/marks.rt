ghost use Rattle.std.specs.Prelude.{◌≡◌, ◌||◌, IfOk, length};
ghost use Rattle.std.specs.List.{list_all, list_any};
ghost use Rattle.lk_fields.specs.Rows.{are_same, is_marked, is_taken, marks_after, marks_from, is_unmarked, next_marks, no_marks};

use crate::rows::{Row, Rule};
use lk_val::{Items, NoMemory};
use std::alloc::Global;

// The marks of fields after as many rounds as there are fields; they end where a round marks nothing.
pub(crate) fn last_marks(alloc: Global, rule: Rule, rows: &[Row]) -> Result<Items<bool>, NoMemory>
    ensures { IfOk result (λ marks. marks ≡ marks_after rule (length rows.now) rows.now) }
{
    let mut marks = no_marks(alloc, rows)?;
    for _round in 0..rows.len() {
        let next = next_marks(alloc, rule, rows, marks.as_slice())?;
        if are_same(next.as_slice(), marks.as_slice()) {
            return Ok(marks);
        }
        marks = next;
    }
    Ok(marks)
}

pub(crate) fn no_marks(alloc: Global, rows: &[Row]) -> Result<Items<bool>, NoMemory>
    ensures { IfOk result (λ marks. marks ≡ no_marks rows.now) }
{
    let mut marks = Items::new(alloc);
    for _row in rows {
        marks.push(false)?;
    }
    Ok(marks)
}

fn next_marks(
    alloc: Global,
    rule: Rule,
    rows: &[Row],
    marks: &[bool],
) -> Result<Items<bool>, NoMemory>
    ensures { IfOk result (λ next. next ≡ next_marks rule rows.now marks.now) }
{
    let mut next = Items::new(alloc);
    for number in 0..rows.len() {
        next.push(is_marked_after(rule, marks, number, &rows[number]))?;
    }
    Ok(next)
}

fn is_marked_after(rule: Rule, marks: &[bool], number: usize, row: &Row) -> bool
    ensures { result ≡ (is_marked marks.now number || is_taken rule marks.now row.now) }
{
    is_marked(marks, number) || is_taken(rule, marks, row)
}

pub(crate) fn is_marked(marks: &[bool], number: usize) -> bool
    ensures { result ≡ is_marked marks.now number }
{
    match marks.get(number) {
        None => false,
        Some(mark) => *mark,
    }
}

fn is_taken(rule: Rule, marks: &[bool], row: &Row) -> bool
    ensures { result ≡ is_taken rule marks.now row.now }
{
    let names = row.names.as_slice();
    match rule {
        Rule::Loses => row.lacks || is_any_marked(marks, names),
        Rule::Ends => !row.lacks && are_all_marked(marks, names),
    }
}

fn are_all_marked(marks: &[bool], names: &[usize]) -> bool
    ensures { result ≡ list_all (is_marked marks.now) names.now }
{
    for number in names {
        if !is_marked(marks, *number) {
            return false;
        }
    }
    true
}

fn is_any_marked(marks: &[bool], names: &[usize]) -> bool
    ensures { result ≡ list_any (is_marked marks.now) names.now }
{
    for number in names {
        if is_marked(marks, *number) {
            return true;
        }
    }
    false
}

fn are_same(a: &[bool], b: &[bool]) -> bool
    ensures { result ≡ are_same a.now b.now }
{
    a == b
}

// There is a number, and its field is not marked.
pub(crate) fn is_unmarked(marks: &[bool], number: Option<usize>) -> bool
    ensures { result ≡ is_unmarked marks.now number }
{
    match number {
        None => false,
        Some(number) => !is_marked(marks, number),
    }
}
