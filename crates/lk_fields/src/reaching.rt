ghost use Rattle.std.specs.Prelude.{◌≡◌, ◌∷◌, Bool, List, [], IfOk};
ghost use Rattle.lk_fields.specs.Reaching.{IsReached, IsVisit, names_at, names_found};
ghost use Rattle.lk_fields.specs.Rows.{is_marked, no_marks};

use crate::marks::{is_marked, no_marks};
use crate::rows::Row;
use lk_val::{Items, NoMemory};
use std::alloc::Global;

/// A mark for each number that a search reaches: those that it begins with, what they refer to, and so on. Each number is
/// visited once, and a number past the rows is none. (lookd)
pub fn reached(alloc: Global, rows: &[Row], begun: &[usize]) -> Result<Items<bool>, NoMemory>
    ensures { IfOk result (IsReached rows.now begun.now) }
{
    let mut marks = no_marks(alloc, rows)?.into_vec();
    let mut found = Items::new(alloc);
    search(rows, begun, marks.as_mut_slice(), &mut found)?;
    Ok(Items::from_vec(marks))
}

// Whether a field refers to itself through any number of references.
pub(crate) fn reaches_itself(alloc: Global, rows: &[Row], start: usize) -> Result<bool, NoMemory>
    ensures { IfOk result (λ reaches. (marks : List Bool) × IsReached rows.now (names_at rows.now start) marks × (reaches ≡ is_marked marks start)) }
{
    let marks = reached(alloc, rows, names_at(rows, start))?;
    Ok(is_marked(marks.as_slice(), start))
}

// Marks what is reached: first the numbers that it begins with, and then what each number that was found refers to.
fn search(
    rows: &[Row],
    begun: &[usize],
    marks: &mut [bool],
    found: &mut Items<usize>,
) -> Result<(), NoMemory>
    requires marks { marks.old ≡ no_marks rows.now }
    requires found { found.old ≡ [] }
    ensures { IfOk result (λ _. IsReached rows.now begun.now marks.new) }
{
    visit_all(begun, marks, found)?;
    for next in 0..rows.len() {
        visit_next(rows, next, marks, found)?;
    }
    Ok(())
}

// Visits what the field that was found at a place refers to, if one was.
fn visit_next(
    rows: &[Row],
    next: usize,
    marks: &mut [bool],
    found: &mut Items<usize>,
) -> Result<(), NoMemory>
    ensures { IfOk result (λ _. IsVisit (names_found rows.now found.old next) marks.old found.old marks.new found.new) }
{
    visit_all(names_found(rows, found.as_slice(), next), marks, found)
}

fn names_found<'a>(rows: &'a [Row], found: &[usize], next: usize) -> &'a [usize]
    ensures { result.now ≡ names_found rows.now found.now next }
{
    match found.get(next) {
        None => &[],
        Some(number) => names_at(rows, *number),
    }
}

// What the field of a number refers to.
fn names_at(rows: &[Row], number: usize) -> &[usize]
    ensures { result.now ≡ names_at rows.now number }
{
    match rows.get(number) {
        None => &[],
        Some(row) => row.names.as_slice(),
    }
}

fn visit_all(names: &[usize], marks: &mut [bool], found: &mut Items<usize>) -> Result<(), NoMemory>
    ensures { IfOk result (λ _. IsVisit names.now marks.old found.old marks.new found.new) }
{
    for number in names {
        visit(*number, marks, found)?;
    }
    Ok(())
}

fn visit(number: usize, marks: &mut [bool], found: &mut Items<usize>) -> Result<(), NoMemory>
    ensures { IfOk result (λ _. IsVisit (number ∷ []) marks.old found.old marks.new found.new) }
{
    if number >= marks.len() {
        return Ok(());
    }
    if marks[number] {
        return Ok(());
    }
    found.push(number)?;
    marks[number] = true;
    Ok(())
}
