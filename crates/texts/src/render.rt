// Dates and times as the texts of elements.
ghost use Rattle.std.specs.Prelude.{◌≡◌, ◌%◌, ◌<◌, ◌≤◌, ◌++◌};
ghost use Rattle.texts.specs.Calendar.{day_of};
ghost use Rattle.texts.specs.Held.{held, added};
ghost use Rattle.texts.specs.Said.{reason_of, Says};
ghost use Rattle.texts.specs.Reason.{shorter};
ghost use Rattle.texts.specs.DateText.{two, long_date, short_date, date_text, envelope_date};
ghost use Rattle.texts.specs.DateBy.{date_by};
ghost use Rattle.texts.specs.Clock.{time_text, envelope_time};

use crate::parse::Date;
use crate::{Text, parse, signed};

// Why a value has no text: its year is none of four digits, its year is outside the window of two digits, its time is outside
// one day, its seconds find no room.
#[derive(Clone, Copy)]
pub enum Refused {
    Year = 1,
    Window = 2,
    Day = 3,
    Seconds = 4,
}

impl Refused {
    // The number of the reason.
    pub fn number(self) -> u64
        ensures { result ≡ reason_of self }
    {
        self as u64
    }
}

// Whether an element takes fewer than n bytes.
fn is_below(max: Option<usize>, n: usize) -> bool
    ensures { result ≡ shorter max n }
{
    max.is_some_and(|m| m < n)
}

impl Text {
    // Two more digits, of a number below 100.
    fn pair(self, n: u32) -> Text
        requires { (self.len ≤ 46) × (n < 100) }
        ensures { result ≡ added self (two n) }
    {
        let at = self.len;
        let mut bytes = self.bytes;
        bytes[at] = (48 + n / 10) as u8;
        bytes[at + 1] = (48 + n % 10) as u8;
        Text { bytes, len: at + 2 }
    }

    // Two pairs of digits, three, and four.
    fn four(a: u32, b: u32) -> Text
        requires { (a < 100) × (b < 100) }
        ensures { result ≡ held (two a ++ two b) }
    {
        Text::empty().pair(a).pair(b)
    }

    fn six(a: u32, b: u32, c: u32) -> Text
        requires { (a < 100) × (b < 100) × (c < 100) }
        ensures { result ≡ held (two a ++ two b ++ two c) }
    {
        Text::four(a, b).pair(c)
    }

    fn eight(a: u32, b: u32, c: u32, d: u32) -> Text
        requires { (a < 100) × (b < 100) × (c < 100) × (d < 100) }
        ensures { result ≡ held (two a ++ two b ++ two c ++ two d) }
    {
        Text::six(a, b, c).pair(d)
    }
}

// CCYYMMDD.
fn long_date(d: Date) -> Result<Text, Refused>
    requires { (d.month < 100) × (d.day < 100) }
    ensures { Says result (long_date (day_of d.year d.month d.day)) }
{
    let y = signed::in_range(d.year, 1, 9999).ok_or(Refused::Year)?;
    Ok(Text::eight(y / 100, y % 100, d.month as u32, d.day as u32))
}

// YYMMDD of the years from low to high, refused for `why` otherwise.
fn short_date(d: Date, low: u32, high: u32, why: Refused) -> Result<Text, Refused>
    requires { (d.month < 100) × (d.day < 100) }
    ensures { Says result (short_date low high (reason_of why) (day_of d.year d.month d.day)) }
{
    let y = signed::in_range(d.year, low, high).ok_or(why)?;
    Ok(Text::six(y % 100, d.month as u32, d.day as u32))
}

// CCYYMMDD, or where the element holds fewer than eight bytes YYMMDD of the years from low to high, refused for `why` otherwise.
fn date_by(
    days: i32,
    max: Option<usize>,
    low: u32,
    high: u32,
    why: Refused,
) -> Result<Text, Refused>
    ensures { Says result (date_by low high (reason_of why) days max) }
{
    let date = parse::civil_from_days(days).ok_or(Refused::Year)?;
    if is_below(max, 8) {
        return short_date(date, low, high, why);
    }
    long_date(date)
}

// A cell's date: its six digits are of the years 1950 to 2049.
pub fn date_text(days: i32, max: Option<usize>) -> Result<Text, Refused>
    ensures { Says result (date_text days max) }
{
    date_by(days, max, 1950, 2049, Refused::Window)
}

// An envelope's date: its six digits are of any century.
pub fn envelope_date(days: i32, max: Option<usize>) -> Result<Text, Refused>
    ensures { Says result (envelope_date days max) }
{
    date_by(days, max, 1, 9999, Refused::Year)
}

// A cell's time: HHMM, or HHMMSS where it has seconds and the element holds them.
#[inline(never)]
pub fn time_text(seconds: i32, max: Option<usize>) -> Result<Text, Refused>
    ensures { Says result (time_text seconds max) }
{
    let n = signed::in_range(seconds, 0, 86399).ok_or(Refused::Day)?;
    if n % 60 == 0 {
        return Ok(Text::four(n / 3600, n / 60 % 60));
    }
    if is_below(max, 6) {
        return Err(Refused::Seconds);
    }
    Ok(Text::six(n / 3600, n / 60 % 60, n % 60))
}

// An envelope's time: HHMM, or HHMMSS where it has seconds; a short one loses them.
#[inline(never)]
pub fn envelope_time(seconds: i32, max: Option<usize>) -> Result<Text, Refused>
    ensures { Says result (envelope_time seconds max) }
{
    let n = signed::in_range(seconds, 0, 86399).ok_or(Refused::Day)?;
    if n % 60 == 0 || is_below(max, 6) {
        return Ok(Text::four(n / 3600, n / 60 % 60));
    }
    Ok(Text::six(n / 3600, n / 60 % 60, n % 60))
}
