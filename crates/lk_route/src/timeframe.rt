// Which timeframes are had from which.

ghost use Rattle.std.specs.Prelude.{◌≡◌};
ghost use Rattle.lk_types.specs.Timeframes.{is_had_from, is_same_frame, sources_of};

use lk_types::Frame;

/// Whether the values of the fine timeframe determine those of the coarse one. (Looker, LookML reference: timeframes)
pub(crate) fn is_had_from(coarse: Frame, fine: Frame) -> bool
    ensures { result ≡ is_had_from coarse fine }
{
    sources_of(coarse)
        .iter()
        .any(|source| is_same_frame(fine, *source))
}

fn is_same_frame(a: Frame, b: Frame) -> bool
    ensures { result ≡ is_same_frame a b }
{
    a as u8 == b as u8
}

fn sources_of(coarse: Frame) -> &'static [Frame]
    ensures { result.now ≡ sources_of coarse }
{
    use Frame::{
        Date, DayOfMonth, DayOfWeek, HourOfDay, Month, MonthNum, Quarter, Raw, Time, Week, Year,
    };
    match coarse {
        Raw => &[Raw],
        Time => &[Raw, Time],
        Date => &[Raw, Time, Date],
        Week => &[Raw, Time, Date, Week],
        Month => &[Raw, Time, Date, Month],
        Quarter => &[Raw, Time, Date, Month, Quarter],
        Year => &[Raw, Time, Date, Month, Quarter, Year],
        HourOfDay => &[Raw, Time, HourOfDay],
        DayOfWeek => &[Raw, Time, Date, DayOfWeek],
        DayOfMonth => &[Raw, Time, Date, DayOfMonth],
        MonthNum => &[Raw, Time, Date, Month, MonthNum],
    }
}
