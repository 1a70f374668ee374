ghost use Rattle.std.specs.Prelude.{◌≡◌, IfOk, codes, is_some, not};
ghost use Rattle.std.specs.List.{fold, list_all};
ghost use Rattle.lk_params.specs.Findings.{sooner};
ghost use Rattle.lk_params.specs.Values.{words};
ghost use Rattle.lk_view_field.specs.FieldFindings.{group_findings, lists_frames};
ghost use Rattle.lk_written.specs.Values.{is_text, is_wrong_at};
ghost use Rattle.lk_view_field.specs.FieldValues.{frame_named};

use crate::frames::frame_named;
use lk_params::{Findings, Order, last_named, words};
use lk_read::Item;
use lk_val::{Items, NoMemory, Text};
use lk_written::{add_wrong, is_missing, is_text, text_at};
use std::alloc::Global;

/// The faults of a dimension group's values: another type than `time`, a timeframe that there is not, and a missing `sql`.
/// `object` is the name `view.group`. (Looker, LookML reference: dimension_group)
pub fn find_in_group(
    alloc: Global,
    object: &str,
    items: &[Item],
    findings: &mut Findings,
) -> Result<(), NoMemory>
    ensures { IfOk result (λ _. findings.new.first
        ≡ fold sooner findings.old.first (group_findings object.now items.now)) }
{
    let is_time = is_text("time", text_at("type", items));
    let has_others = has_other_frames(alloc, items)?;
    add_wrong(alloc, Order::Field, object, "type", !is_time, findings)?;
    add_wrong(
        alloc,
        Order::Field,
        object,
        "timeframes",
        has_others,
        findings,
    )?;
    add_wrong(
        alloc,
        Order::Field,
        object,
        "sql",
        is_missing("sql", items),
        findings,
    )
}

fn has_other_frames(alloc: Global, items: &[Item]) -> Result<bool, NoMemory>
    ensures { IfOk result (λ has. has
        ≡ is_wrong_at (λ value. not (lists_frames (words value))) (codes "timeframes") items.now) }
{
    match last_named("timeframes", items) {
        None => Ok(false),
        Some(item) => Ok(!lists_frames(words(alloc, &item.value)?)),
    }
}

fn lists_frames(names: Option<Items<Text>>) -> bool
    ensures { result ≡ lists_frames names }
{
    match names {
        None => false,
        Some(names) => are_frames(names.as_slice()),
    }
}

fn are_frames(names: &[Text]) -> bool
    ensures { result ≡ list_all (λ name. is_some (frame_named name)) names.now }
{
    names
        .iter()
        .all(|name| frame_named(name.as_str()).is_some())
}
