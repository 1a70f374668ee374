ghost use Rattle.std.specs.Prelude.{◌≡◌, IfOk, codes};
ghost use Rattle.lk_params.specs.Parameters.{last_named};
ghost use Rattle.lk_params.specs.Values.{words};
ghost use Rattle.lk_view_field.specs.FieldValues.{all_frames, frame_named, part_named, frames_in, frames_named, frames_of};

use lk_params::{firsts, last_named, words};
use lk_read::Item;
use lk_types::Frame;
use lk_val::{Items, NoMemory, Text};
use std::alloc::Global;

/// The timeframe of a name. (Looker, LookML reference: timeframes)
pub fn frame_named(name: &str) -> Option<Frame>
    ensures { result ≡ frame_named name.now }
{
    if name == "raw" {
        Some(Frame::Raw)
    } else if name == "time" {
        Some(Frame::Time)
    } else if name == "date" {
        Some(Frame::Date)
    } else if name == "week" {
        Some(Frame::Week)
    } else if name == "month" {
        Some(Frame::Month)
    } else if name == "quarter" {
        Some(Frame::Quarter)
    } else if name == "year" {
        Some(Frame::Year)
    } else {
        part_named(name)
    }
}

// The part of a moment of a name.
fn part_named(name: &str) -> Option<Frame>
    ensures { result ≡ part_named name.now }
{
    if name == "hour_of_day" {
        Some(Frame::HourOfDay)
    } else if name == "day_of_week" {
        Some(Frame::DayOfWeek)
    } else if name == "day_of_month" {
        Some(Frame::DayOfMonth)
    } else if name == "month_num" {
        Some(Frame::MonthNum)
    } else {
        None
    }
}

/// The timeframes that some names name, in order; other names name none.
pub fn frames_named(alloc: Global, names: &[Text]) -> Result<Items<Frame>, NoMemory>
    ensures { IfOk result (λ frames. frames ≡ frames_named names.now) }
{
    let mut frames = Items::new(alloc);
    for name in names {
        if let Some(frame) = frame_named(name.as_str()) {
            frames.push(frame)?;
        }
    }
    Ok(frames)
}

/// The timeframes of a dimension group: those that it lists, each once, and without `timeframes` all.
/// (Looker, LookML reference: timeframes)
pub fn frames_of(alloc: Global, items: &[Item]) -> Result<Items<Frame>, NoMemory>
    ensures { IfOk result (λ frames. frames ≡ frames_of (last_named (codes "timeframes") items.now)) }
{
    match last_named("timeframes", items) {
        None => all_frames(alloc),
        Some(item) => frames_in(alloc, words(alloc, &item.value)?),
    }
}

fn frames_in(alloc: Global, names: Option<Items<Text>>) -> Result<Items<Frame>, NoMemory>
    ensures { IfOk result (λ frames. frames ≡ frames_in names) }
{
    match names {
        None => Ok(Items::new(alloc)),
        Some(names) => frames_named(alloc, firsts(alloc, names.as_slice())?.as_slice()),
    }
}

fn all_frames(alloc: Global) -> Result<Items<Frame>, NoMemory>
    ensures { IfOk result (λ frames. frames ≡ all_frames) }
{
    let mut frames = Items::new(alloc);
    frames.push(Frame::Raw)?;
    frames.push(Frame::Time)?;
    frames.push(Frame::Date)?;
    frames.push(Frame::Week)?;
    frames.push(Frame::Month)?;
    frames.push(Frame::Quarter)?;
    frames.push(Frame::Year)?;
    frames.push(Frame::HourOfDay)?;
    frames.push(Frame::DayOfWeek)?;
    frames.push(Frame::DayOfMonth)?;
    frames.push(Frame::MonthNum)?;
    Ok(frames)
}
