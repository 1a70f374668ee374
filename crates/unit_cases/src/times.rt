ghost use Rattle.std.specs.Prelude.{◌≡◌, false};
ghost use Rattle.lk_types.specs.Timeframes.{is_same_frame};
ghost use Rattle.lk_types.specs.declared.schema.Frame.TheVariants as frame_is;
ghost use Rattle.lk_time.specs.FrameValues.{IsInYears};

use crate::fault::CaseFault;
use crate::values::{add_value, value_of};
use lk_time::NotHad;
use lk_types::Frame;
use lk_val::Value;
use std::alloc::Global;

/// Adds a timeframe of a value, brought to a coarser one, of the names of both and the value; `T1` where that isn't had
/// from it.
pub fn add_coarser(alloc: Global, text: &str, line: &mut String) -> Result<(), CaseFault> {
    let Some((fine, rest)) = text.split_once(" | ") else {
        return Err(CaseFault::NoSuchCase);
    };
    let Some((coarse, word)) = rest.split_once(" | ") else {
        return Err(CaseFault::NoSuchCase);
    };
    let (fine, coarse) = (frame_of(fine)?, frame_of(coarse)?);
    let value = value_of(alloc, word)?;
    let added = add_coarsened(alloc, &value, fine, coarse, line);
    // By name, since that is one call where the end of a block is one for each form.
    drop(value);
    added
}

fn add_coarsened(
    alloc: Global,
    value: &Value,
    fine: Frame,
    coarse: Frame,
    line: &mut String,
) -> Result<(), CaseFault> {
    if fine == Frame::DayOfWeek || !lk_time::is_in_years(value) {
        return Err(CaseFault::NoSuchCase);
    }
    match coarser(value, fine, coarse) {
        Ok(framed) => {
            let added = add_value(alloc, &framed, line);
            drop(framed);
            added
        }
        Err(NotHad::T1) => Ok(line.push_str("T1")?),
    }
}

fn coarser(value: &Value, fine: Frame, coarse: Frame) -> Result<Value, NotHad>
    requires in_years { IsInYears value.now }
    requires no_weekday { is_same_frame fine frame_is.DayOfWeek ≡ false }
{
    lk_time::coarsen(fine, coarse, &lk_time::frame(value, fine))
}

/// Adds whether a value is null, or a day or moment of the years 1 to 9999.
pub fn add_in_years(alloc: Global, word: &str, line: &mut String) -> Result<(), CaseFault> {
    let value = value_of(alloc, word)?;
    let is_in_years = lk_time::is_in_years(&value);
    drop(value);
    Ok(line.push_str(if is_in_years { "yes" } else { "no" })?)
}

/// The timeframe of a name.
pub fn frame_of(word: &str) -> Result<Frame, CaseFault> {
    match word {
        "raw" => Ok(Frame::Raw),
        "time" => Ok(Frame::Time),
        "date" => Ok(Frame::Date),
        "week" => Ok(Frame::Week),
        "month" => Ok(Frame::Month),
        "quarter" => Ok(Frame::Quarter),
        part => part_frame_of(part),
    }
}

// The timeframe of a year, or of one part of a day or a moment, by its name.
fn part_frame_of(word: &str) -> Result<Frame, CaseFault> {
    match word {
        "year" => Ok(Frame::Year),
        "hour_of_day" => Ok(Frame::HourOfDay),
        "day_of_week" => Ok(Frame::DayOfWeek),
        "day_of_month" => Ok(Frame::DayOfMonth),
        "month_num" => Ok(Frame::MonthNum),
        _ => Err(CaseFault::NoSuchCase),
    }
}
