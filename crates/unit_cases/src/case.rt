use crate::chain::add_chain;
use crate::conditions::add_condition;
use crate::fault::CaseFault;
use crate::filters::add_asked;
use crate::forms::{add_in_brackets, add_judged};
use crate::fractions::{add_fraction, add_rounded};
use crate::measures::add_gathered;
use crate::merging::add_merged;
use crate::orders::add_order;
use crate::signs::add_signs;
use crate::tables::{add_appends, add_marks};
use crate::times::{add_coarser, add_in_years};
use crate::trees::{add_canonical, add_made, add_made_again, add_names, add_read};
use crate::utf8::add_owed;
use crate::values::add_printed;
use crate::written::written;
use std::alloc::Global;

/// Adds the answer of a line: its first word says what it is about, the words behind it what of that, and a bar parts them
/// from the rest. An empty line and a heading stand as they are.
pub fn add_answer(alloc: Global, line: &str, answer: &mut String) -> Result<(), CaseFault> {
    if line.is_empty() || line.starts_with("#") {
        return Ok(answer.push_str(line)?);
    }
    let Some((head, text)) = line.split_once(" | ") else {
        return Err(CaseFault::NoSuchCase);
    };
    let (task, name) = head.split_once(" ").unwrap_or((head, ""));
    add_task(alloc, task, name, text, answer)
}

fn add_task(
    alloc: Global,
    task: &str,
    name: &str,
    text: &str,
    answer: &mut String,
) -> Result<(), CaseFault> {
    match task {
        "ascending" => add_order(alloc, name, text, answer),
        "filter" => add_asked(alloc, name, text, answer),
        "condition" => add_condition(alloc, name, text, answer),
        "measure" | "lend" | "keep" => add_gathered(alloc, task, name, text, answer),
        "made" => add_made(alloc, name, answer),
        task => add_of_form(alloc, task, name, text, answer),
    }
}

fn add_of_form(
    alloc: Global,
    task: &str,
    name: &str,
    text: &str,
    answer: &mut String,
) -> Result<(), CaseFault> {
    match task {
        "canonical" => add_canonical(alloc, name, text, answer),
        "form" => add_judged(alloc, name, text, answer),
        "brackets" => add_in_brackets(alloc, name, text, answer),
        task => add_of_value(alloc, task, text, answer),
    }
}

fn add_of_value(
    alloc: Global,
    task: &str,
    text: &str,
    answer: &mut String,
) -> Result<(), CaseFault> {
    match task {
        "fraction" => add_fraction(alloc, text, answer),
        "print" => add_printed(alloc, text, answer),
        "rounded" => add_rounded(alloc, text, answer),
        "chain" => add_chain(alloc, text, answer),
        "coarser" => add_coarser(alloc, text, answer),
        "in" => add_in_years(alloc, text, answer),
        "merge" => add_merged(alloc, text, answer),
        task => add_of_text(alloc, task, text, answer),
    }
}

fn add_of_text(
    alloc: Global,
    task: &str,
    text: &str,
    answer: &mut String,
) -> Result<(), CaseFault> {
    match task {
        "utf8" => add_owed(written(alloc, text)?.as_slice(), answer),
        "marks" => add_marks(alloc, text, answer),
        "appends" => add_appends(alloc, text, answer),
        "words" => add_signs(alloc, text, answer),
        "lookml" => add_read(alloc, text, answer),
        "names" => add_names(alloc, text, answer),
        "taken" => add_made_again(alloc, text, answer),
        _ => Err(CaseFault::NoSuchCase),
    }
}
