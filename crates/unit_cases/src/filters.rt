// Filters as they are read, before a value is asked for.

use crate::fault::CaseFault;
use crate::values::value_of;
use crate::written::written;
use lk_cell::read_moment;
use lk_filter::{FilterFault, FilterKind, passes, place, read_filter, same};
use lk_types::{Filter, Test};
use std::alloc::Global;

/// Noon of Saturday 2024-03-02.
pub const NOON: i64 = 1_709_380_800;

/// Adds the answer about a filter of a kind: of its text, what is asked of it, and a clock where the line has one. Relative
/// dates are placed at noon of Saturday 2024-03-02 where the line has no clock.
pub fn add_asked(
    alloc: Global,
    kind: &str,
    text: &str,
    line: &mut String,
) -> Result<(), CaseFault> {
    let Some((filter, question)) = text.split_once(" | ") else {
        return Err(CaseFault::NoSuchCase);
    };
    let (question, clock) = match question.split_once(" | ") {
        Some((question, clock)) => (question, moment_of(clock)?),
        None => (question, Some(NOON)),
    };
    let kind = kind_of(kind)?;
    if question == "refused" {
        return add_refusal(alloc, kind, filter, line);
    }
    let filter = filter_of(alloc, kind, filter)?;
    match question.strip_prefix("same as ") {
        Some(other) => add_sameness(&filter, filter_of(alloc, kind, other), line),
        None => add_answer_of(alloc, &filter, question, clock, line),
    }
}

fn kind_of(name: &str) -> Result<FilterKind, CaseFault> {
    match name {
        "text" => Ok(FilterKind::Text),
        "number" => Ok(FilterKind::Number),
        "date" => Ok(FilterKind::Date),
        "truth" => Ok(FilterKind::Truth),
        _ => Err(CaseFault::NoSuchCase),
    }
}

/// The filter of a kind that a text spells.
pub fn filter_of(alloc: Global, kind: FilterKind, text: &str) -> Result<Filter, CaseFault> {
    match read_filter(alloc, kind, text.as_bytes()) {
        Ok(filter) => Ok(filter),
        Err(FilterFault::Syntax(_)) => Err(CaseFault::NoSuchCase),
        Err(FilterFault::NoMemory) => Err(CaseFault::NoMemory),
    }
}

// Whether bytes, which may be no UTF-8, are read as a filter.
fn add_refusal(
    alloc: Global,
    kind: FilterKind,
    text: &str,
    line: &mut String,
) -> Result<(), CaseFault> {
    match read_filter(alloc, kind, written(alloc, text)?.as_slice()) {
        Ok(_) => Ok(line.push_str("read")?),
        Err(FilterFault::Syntax(place)) => Ok(write!(line, "refused at {place}")?),
        Err(FilterFault::NoMemory) => Err(CaseFault::NoMemory),
    }
}

// The moment at which relative dates are placed; none where they stay.
fn moment_of(clock: &str) -> Result<Option<i64>, CaseFault> {
    if clock == "no clock" {
        return Ok(None);
    }
    Ok(Some(read_moment(clock.as_bytes()).ok_or(CaseFault::NoSuchCase)?))
}

fn add_answer_of(
    alloc: Global,
    filter: &Filter,
    question: &str,
    clock: Option<i64>,
    line: &mut String,
) -> Result<(), CaseFault> {
    match question {
        "sides" => add_sides(filter, line),
        "relative" => Ok(line.push_str(if filter.relative {
            "relative"
        } else {
            "placed"
        })?),
        question => match clock {
            Some(now) => add_passing(alloc, &place(alloc, filter, now)?, question, line),
            None => add_passing(alloc, filter, question, line),
        },
    }
}

fn add_sides(filter: &Filter, line: &mut String) -> Result<(), CaseFault> {
    let (includes, excludes) = (filter.include.len(), filter.exclude.len());
    Ok(write!(line, "includes {includes}, excludes {excludes}")?)
}

// The days of its one test, or whether a value passes.
fn add_passing(
    alloc: Global,
    filter: &Filter,
    question: &str,
    line: &mut String,
) -> Result<(), CaseFault> {
    if question == "days" {
        return match (filter.include.as_slice(), filter.exclude.as_slice()) {
            ([test], []) => add_days(test, line),
            _ => Err(CaseFault::NoSuchCase),
        };
    }
    let value = value_of(alloc, question)?;
    let passes = passes(filter, &value);
    drop(value);
    Ok(line.push_str(if passes { "passes" } else { "fails" })?)
}

// The days of a test, which are counted from 1970-01-01.
fn add_days(test: &Test, line: &mut String) -> Result<(), CaseFault> {
    match test {
        Test::In(days) => add_span(days.from, days.up_to, line),
        Test::Before(days) => {
            let from = days.from;
            Ok(write!(line, "before {from}")?)
        }
        Test::After(days) => {
            let from = days.from;
            Ok(write!(line, "from {from} on")?)
        }
        Test::FromTo(first, last) => add_span(first.from, last.from, line),
        _ => Ok(line.push_str("no days")?),
    }
}

fn add_span(from: i32, up_to: i32, line: &mut String) -> Result<(), CaseFault> {
    Ok(write!(line, "from {from} up to {up_to}")?)
}

fn add_sameness(
    filter: &Filter,
    other: Result<Filter, CaseFault>,
    line: &mut String,
) -> Result<(), CaseFault> {
    let is_same = same(filter, &other?);
    Ok(line.push_str(if is_same { "the same" } else { "another" })?)
}
