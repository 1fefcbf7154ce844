// Day counts as dates of the Gregorian calendar.
ghost use Rattle.std.specs.Prelude.{◌≡◌, ◌<◌, ◌≤◌};
ghost use Rattle.std.specs.Int.Signed.{mag};
ghost use Rattle.texts.specs.Floor.{signed32};
ghost use Rattle.texts.specs.Dated.{civil_from, from_march};
ghost use Rattle.texts.specs.Calendar.{day_of};

// A day of the calendar. Its fields are any numbers; what writes them asks for bounds.
#[derive(Clone, Copy)]
pub struct Date {
    pub year: i32,
    pub month: u8,
    pub day: u8,
}

// The signed number whose 32 bits n has.
pub fn from_bits(n: u32) -> i32
    ensures { result ≡ signed32 n }
{
    n.cast_signed()
}

// The date e days after the first of March of the year 0, in the 400 years from there.
fn era_day(e: u32) -> Date
    requires { e < 146097 }
    ensures { (day_of result.year result.month result.day ≡ from_march e) × (mag result.year ≤ 400) }
{
    let y = (e - e / 1460 + e / 36524 - e / 146096) / 365;
    let doy = e - (365 * y + y / 4 - y / 100);
    let m = (5 * doy + 2) / 153;
    let day = (doy - (153 * m + 2) / 5 + 1) as u8;
    if m < 10 {
        return Date {
            year: y as i32,
            month: (m + 3) as u8,
            day,
        };
    }
    Date {
        year: (y + 1) as i32,
        month: (m - 9) as u8,
        day,
    }
}

// The date `days` days after 1970-01-01, which is 719,468 days after the first of March of the year 0; none where that sum overflows.
// An era is 400 years, counted from that first of March: its dates are those of every other era, but for the year.
pub fn civil_from_days(days: i32) -> Option<Date>
    ensures { result ≡ civil_from days }
{
    let shifted = days.checked_add(719468)?;
    let era = shifted.div_euclid(146097);
    let date = era_day(shifted.rem_euclid(146097) as u32);
    Some(Date {
        year: era * 400 + date.year,
        ..date
    })
}
