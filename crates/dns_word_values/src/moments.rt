//! Times of signatures.

ghost use Rattle.std.specs.Prelude.{◌≡◌, ◌≤◌, ◌<◌, IfSome, length};
ghost use Rattle.dns_word_values.specs.Moments.{date_and_time, date_days, date_of, days_before, days_since_1970, is_date, is_leap, leap_day, leap_years, moment, month_days, time_of};

use crate::values::decimal;

/// Whether a year is a leap year.
fn is_leap(year: u64) -> bool
    ensures { result ≡ is_leap year }
{
    year % 4 == 0 && (year % 100 != 0 || year % 400 == 0)
}

/// The leap years up to this one.
fn leap_years(year: u64) -> u64
    ensures value { result ≡ leap_years year }
    ensures few { result ≤ year }
{
    year / 4 - year / 100 + year / 400
}

/// The days of a month.
fn month_days(year: u64, month: u64) -> u64
    ensures { result ≡ month_days year month }
{
    match month {
        2 => {
            if is_leap(year) {
                return 29;
            }
            28
        }
        4 | 6 | 9 | 11 => 30,
        _ => 31,
    }
}

/// The days before a month, in a year of 365.
fn days_before(month: u64) -> u64
    ensures value { result ≡ days_before month }
    ensures few { result ≤ 334 }
{
    match month {
        2 => 31,
        3 => 59,
        4 => 90,
        5 => 120,
        6 => 151,
        7 => 181,
        8 => 212,
        9 => 243,
        10 => 273,
        11 => 304,
        12 => 334,
        _ => 0,
    }
}

/// The leap day of a year, if it came before the month.
fn leap_day(year: u64, month: u64) -> u64
    ensures value { result ≡ leap_day year month }
    ensures few { result ≤ 1 }
{
    if month > 2 && is_leap(year) {
        return 1;
    }
    0
}

/// Whether a year, a month and a day are a date from 1970 on.
fn is_date(year: u64, month: u64, day: u64) -> bool
    ensures { result ≡ is_date year month day }
{
    if year < 1970 || month < 1 || month > 12 {
        return false;
    }
    day >= 1 && day <= month_days(year, month)
}

/// The days of a date.
fn date_days(year: u64, month: u64, day: u64) -> Option<u64>
    requires year { year < 10000 }
    requires day { day < 100 }
    ensures value { result ≡ date_days year month day }
    ensures few { IfSome result (λ n. n < 4000000) }
{
    if !is_date(year, month, day) {
        return None;
    }
    let leaps = leap_years(year - 1).saturating_sub(477);
    let years = 365 * (year - 1970) + leaps;
    let months = days_before(month) + leap_day(year, month);
    Some(years + (months + (day - 1)))
}

/// The days of a date of eight digits.
#[tactic(auto, unfolding(crate::specs::Moments::date_of))]
fn date_of(word: &[u8]) -> Option<u64>
    requires { length word.now ≡ 8 }
    ensures value { result ≡ date_of word.now }
    ensures few { IfSome result (λ n. n < 4000000) }
{
    let year = decimal(&word[..4], 10000)?;
    let month = decimal(&word[4..6], 100)?;
    let day = decimal(&word[6..], 100)?;
    date_days(year, month, day)
}

/// The seconds of a time of six digits.
#[tactic(auto, unfolding(crate::specs::Moments::time_of))]
fn time_of(word: &[u8]) -> Option<u64>
    requires { length word.now ≡ 6 }
    ensures value { result ≡ time_of word.now }
    ensures few { IfSome result (λ n. n < 86400) }
{
    let hour = decimal(&word[..2], 24)?;
    let minute = decimal(&word[2..4], 60)?;
    let second = decimal(&word[4..], 60)?;
    Some(3600 * hour + (60 * minute + second))
}

/// The seconds of a date and a time of fourteen digits.
#[tactic(auto, unfolding(crate::specs::Moments::date_and_time))]
fn date_and_time(word: &[u8]) -> Option<u64>
    requires { length word.now ≡ 14 }
    ensures value { result ≡ date_and_time word.now }
    ensures below { IfSome result (λ n. n < 4294967296) }
{
    let days = date_of(&word[..8])?;
    let seconds = time_of(&word[8..])?;
    Some((86400 * days + seconds) % 4_294_967_296)
}

/// The seconds of a date and a time, or those that a number is.
pub fn moment(word: &[u8]) -> Option<u64>
    ensures value { result ≡ moment word.now }
    ensures below { IfSome result (λ n. n < 4294967296) }
{
    if word.len() == 14 {
        return date_and_time(word);
    }
    decimal(word, 4_294_967_296)
}
