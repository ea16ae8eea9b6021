//! The moment that the clock tells, as the calendar has it.

ghost use Rattle.std.specs.Prelude.{◌≡◌, ◌<◌, ◌+◌, IfSome};
ghost use Rattle.sig_system.specs.Calendar as spec;
ghost use Rattle.sig_system.specs.Calendar.{IsMoment, days_before_month, days_before_year};

// The years from 1970 on of which moments are told: those with four digits.
const YEARS: u64 = 8_030;

/// A moment of the Gregorian calendar in UTC. Months and days are counted from 1.
#[derive(Clone, Copy, Debug, PartialEq, Eq)]
pub struct Moment {
    pub year: u64,
    pub month: u64,
    pub day: u64,
    pub hour: u64,
    pub minute: u64,
    pub second: u64,
}

// A number of whole years or months, and the days beside them.
#[derive(Clone, Copy)]
struct Whole {
    count: u64,
    left: u64,
}

/// The moment so many seconds after the start of 1970; none after the year 9999.
pub fn moment_at(seconds: u64) -> Option<Moment>
    ensures { IfSome result (IsMoment seconds) }
{
    let years = years_in(seconds / 86_400)?;
    let year = 1970 + years.count;
    let months = months_in(is_leap(year), years.left)?;
    let second = seconds % 86_400;
    Some(Moment {
        year,
        month: 1 + months.count,
        day: 1 + months.left,
        hour: second / 3_600,
        minute: second / 60 % 60,
        second: second % 60,
    })
}

// The whole years from 1970 on in so many days.
fn years_in(days: u64) -> Option<Whole>
    ensures sum { IfSome result (λ whole. days_before_year whole.count + whole.left ≡ days) }
    ensures bound { IfSome result (λ whole. whole.count < YEARS) }
{
    let mut left = days;
    for count in 0..YEARS {
        let length = year_days(1970 + count);
        if left < length {
            return Some(Whole { count, left });
        }
        left -= length;
    }
    None
}

// The whole months in so many days of a year.
fn months_in(leap: bool, days: u64) -> Option<Whole>
    ensures sum { IfSome result (λ whole. days_before_month leap whole.count + whole.left ≡ days) }
    ensures month { IfSome result (λ whole. whole.left < spec.month_days leap (1 + whole.count)) }
    ensures year { IfSome result (λ whole. whole.count < 12) }
{
    let mut left = days;
    for count in 0..12 {
        let length = month_days(leap, 1 + count);
        if left < length {
            return Some(Whole { count, left });
        }
        left -= length;
    }
    None
}

// Whether a year has a 29th of February.
fn is_leap(year: u64) -> bool
    ensures { result ≡ spec.is_leap year }
{
    year % 4 == 0 && (year % 100 != 0 || year % 400 == 0)
}

fn year_days(year: u64) -> u64
    ensures { result ≡ spec.year_days year }
{
    if is_leap(year) { 366 } else { 365 }
}

// The days of a month, counted from 1.
fn month_days(leap: bool, month: u64) -> u64
    ensures { result ≡ spec.month_days leap month }
{
    if month == 2 {
        return if leap { 29 } else { 28 };
    }
    if month == 4 || month == 6 || month == 9 || month == 11 {
        30
    } else {
        31
    }
}
