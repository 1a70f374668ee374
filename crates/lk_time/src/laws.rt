// Laws of the timeframes. Each is a function that computes nothing: its clauses are the law.

ghost use Rattle.std.specs.Prelude.{◌≡◌, ◌%◌, ◌≤ℤ◌, true, pos, neg_ℤ};
ghost use Rattle.jiff_core.specs.Date.{epoch_day, weekday_of};
ghost use Rattle.jiff_core.specs.declared.civil.date.Date.{Date};
ghost use Rattle.lk_types.specs.Calendar.{year_of, month_of, day_of_month};
ghost use Rattle.lk_types.specs.Timeframes.{coarsened, is_had_from, timeframe_of};
ghost use Rattle.lk_types.specs.declared.schema.Frame.{Frame};
ghost use Rattle.lk_types.specs.declared.schema.Frame.TheVariants.{DayOfWeek};
ghost use Rattle.lk_val.specs.declared.value.Value.{Value};
ghost use Rattle.lk_time.specs.CivilDates.{IsFromYearOne, day_of_date};
ghost use Rattle.lk_time.specs.FrameValues.{IsInYears, frame_value};

/// The year, month, day of the month and weekday by which timeframes are defined are those of the civil date of
/// that day, from 0001-01-01 on. A law: it computes nothing.
pub fn calendar_is_civil()
    ensures year { (date : Date) → IsFromYearOne date
        → pos (year_of (day_of_date date)) ≡ date.year }
    ensures month { (date : Date) → IsFromYearOne date
        → month_of (year_of (day_of_date date)) (day_of_date date) ≡ date.month }
    ensures day { (date : Date) → IsFromYearOne date
        → day_of_month (day_of_date date) ≡ date.day }
    ensures weekday { (date : Date) → IsFromYearOne date
        → day_of_date date % 7 ≡ weekday_of date }
    ensures first { (date : Date) → neg_ℤ (pos 719162) ≤ℤ epoch_day date → IsFromYearOne date }
{}

/// A timeframe of a timeframe is the timeframe, wherever the one is had from the other; and the day that stands for
/// a day of the week has its name. A law: it computes nothing.
pub fn framing_again_is_framing()
    ensures again { (fine coarse : Frame) (v : Value) → IsInYears v → is_had_from coarse fine ≡ true
        → coarsened coarse fine (timeframe_of fine v) ≡ timeframe_of coarse v }
    ensures weekday { (v : Value) → IsInYears v
        → timeframe_of DayOfWeek (frame_value DayOfWeek v) ≡ timeframe_of DayOfWeek v }
{}
