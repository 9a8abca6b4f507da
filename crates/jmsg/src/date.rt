//! Dates (RFC 3339, section 5.6): `YYYY-MM-DDTHH:MM:SS.mmmZ`, in UTC with three decimals.
ghost use Rattle.std.specs.Prelude.{◌≡◌, ◌<◌, ◌^◌, ◌+◌, ◌/◌, ◌%◌, unsigned_abs};
ghost use Rattle.jmsg.specs.Date.{digit, text_of, IsDateText, date_of};

use jiff::Timestamp;
use jiff::civil::DateTime;
use jiff::tz::Offset;

/// The text of a moment that is given in milliseconds since 1970-01-01T00:00:00Z. Below 2^47, in
/// the year 6429, each year has four digits. Takes no memory.
pub fn date_text(ms: u64) -> [u8; 24]
    requires { ms < 2 ^ 47 }
    ensures is { IsDateText ms result }
    ensures date { result ≡ date_of ms }
{
    let at = Timestamp::from_millisecond(ms as i64).unwrap();
    text_of(Offset::UTC.to_datetime(at))
}

#[tactic(auto, unfolding(crate::specs::Date::text_of))]
fn text_of(d: DateTime) -> [u8; 24]
    ensures { result ≡ text_of d }
{
    let year = year_of(d);
    let month = month_of(d);
    let day = day_of(d);
    let hour = hour_of(d);
    let minute = minute_of(d);
    let second = second_of(d);
    let ms = ms_of(d);
    [
        digit(year, 1000),
        digit(year, 100),
        digit(year, 10),
        digit(year, 1),
        b'-',
        digit(month, 10),
        digit(month, 1),
        b'-',
        digit(day, 10),
        digit(day, 1),
        b'T',
        digit(hour, 10),
        digit(hour, 1),
        b':',
        digit(minute, 10),
        digit(minute, 1),
        b':',
        digit(second, 10),
        digit(second, 1),
        b'.',
        digit(ms, 100),
        digit(ms, 10),
        digit(ms, 1),
        b'Z',
    ]
}

/// The decimal digit of `n` that counts by `unit`, a power of ten.
fn digit(n: u32, unit: u32) -> u8
    requires { 0 < unit }
    ensures { result ≡ digit n unit }
{
    (48 + n / unit % 10) as u8
}

fn year_of(d: DateTime) -> u32
    ensures { result ≡ unsigned_abs d.date.year }
{
    d.year().unsigned_abs() as u32
}

fn month_of(d: DateTime) -> u32
    ensures { result ≡ d.date.month }
{
    d.month().unsigned_abs() as u32
}

fn day_of(d: DateTime) -> u32
    ensures { result ≡ d.date.day }
{
    d.day().unsigned_abs() as u32
}

fn hour_of(d: DateTime) -> u32
    ensures { result ≡ d.time.hour }
{
    d.hour().unsigned_abs() as u32
}

fn minute_of(d: DateTime) -> u32
    ensures { result ≡ d.time.minute }
{
    d.minute().unsigned_abs() as u32
}

fn second_of(d: DateTime) -> u32
    ensures { result ≡ d.time.second }
{
    d.second().unsigned_abs() as u32
}

fn ms_of(d: DateTime) -> u32
    ensures { result ≡ d.time.subsec_nanosecond / 1000000 }
{
    d.millisecond().unsigned_abs() as u32
}
