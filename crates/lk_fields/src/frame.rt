ghost use Rattle.std.specs.Prelude.{◌≡◌};
ghost use Rattle.lk_fields.specs.Scopes.{frame_name};

use lk_types::Frame;

/// The name of a timeframe. (Looker, LookML reference: timeframes)
pub fn frame_name(frame: Frame) -> &'static str
    ensures { result.now ≡ frame_name frame }
{
    match frame {
        Frame::Raw => "raw",
        Frame::Time => "time",
        Frame::Date => "date",
        Frame::Week => "week",
        Frame::Month => "month",
        Frame::Quarter => "quarter",
        Frame::Year => "year",
        Frame::HourOfDay => "hour_of_day",
        Frame::DayOfWeek => "day_of_week",
        Frame::DayOfMonth => "day_of_month",
        Frame::MonthNum => "month_num",
    }
}
