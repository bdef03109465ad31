// The calendar: fields of the date and the time of day of an instant.
ghost use Rattle.std.specs.Prelude.{◌≡◌, ◌<◌, ◌+◌, ◌-◌, ◌+ℤ◌, ℤ, pos, negsuc};
ghost use Rattle.jiff.specs.Words.{IsBetween, epoch_day};
ghost use Rattle.spec_vectors.specs.Calendar.{calendar_of, date_after, days_before, date_field, field_at};
ghost use Rattle.pr_fn.specs.private.Dates.{IsDateAfter};

use jiff::civil::Date;
use pr_num::Num;
use spec_vectors::Part;

const SECONDS_IN_DAY: u64 = 86_400;

/// From 1 January of the year 1 to that of 1970, and to that of 10000, in seconds.
const SECONDS_TO_1970: i128 = 62_135_596_800;

const SECONDS_TO_10000: i128 = 315_537_897_600;

// The date of a day number, from that of 1 January of the year 1 on.
fn date_of(day: i64) -> Date
    requires { IsBetween (negsuc 719161) (pos 2932896) day }
    ensures { epoch_day result ≡ day }
{
    Date::from_plain(jiff_core::civil::Date::from_unix_epoch_day(day).unwrap())
}

// The date so many days after 1 January of the year 1, by its day number.
fn numbered(days: u64) -> Date
    requires { days < 3652059 }
    ensures { epoch_day result +ℤ pos 719162 ≡ pos days }
{
    date_of(days as i64 - 719_162)
}

// The same, by its year, month and day.
fn date_after(days: u64) -> Date
    requires { days < 3652059 }
    ensures { IsDateAfter days result }
{
    numbered(days)
}

// The place of that date in its year, from 1.
fn day_of_year(days: u64) -> i16
    requires { days < 3652059 }
    ensures { result ≡ pos (days_before (date_after days).year ((date_after days).month - 1) + (date_after days).day) }
{
    date_after(days).day_of_year()
}

// A field by the days before the date, and the second of the day.
fn date_field(part: Part, days: u64, second: u64) -> i64
    requires days { days < 3652059 }
    requires second { second < 86400 }
    ensures { result ≡ pos (date_field part days second) }
{
    match part {
        Part::Minute => (second / 60 % 60) as i64,
        Part::Hour => (second / 3600) as i64,
        Part::DayOfWeek => ((days + 1) % 7) as i64,
        Part::DayOfMonth => date_after(days).day() as i64,
        Part::DayOfYear => day_of_year(days) as i64,
        Part::DaysInMonth => date_after(days).days_in_month() as i64,
        Part::Month => date_after(days).month() as i64,
        Part::Year => date_after(days).year() as i64,
    }
}

// A field by the whole seconds since 1 January of the year 1.
fn field_at(part: Part, since: i128) -> Num
    ensures { result ≡ field_at part since }
{
    if since < 0 || since >= SECONDS_TO_10000 {
        return Num::NaN;
    }
    let seconds = since as u64;
    Num::whole(date_field(part, seconds / SECONDS_IN_DAY, seconds % SECONDS_IN_DAY))
}

/// A field of the date and the time of day, in UTC, of an instant that is given as seconds since
/// 1970. The seconds are cut to whole seconds, toward zero; it is NaN unless these are in the years
/// 1 to 9999 of the Gregorian calendar. (Prometheus: Querying, Functions, `minute` to `year`; the
/// years that have fields are own choice.)
pub fn calendar(part: Part, seconds: Num) -> Num
    ensures { result ≡ calendar_of part seconds }
{
    match seconds {
        Num::Finite(value) => field_at(part, value.units() / 1_000_000_000 + SECONDS_TO_1970),
        Num::NaN | Num::PosInf | Num::NegInf => Num::NaN,
    }
}
