//! Clock times: a time of day, and the date before it.

ghost use Rattle.std.specs.Prelude.{◌≡◌, ◌<◌, ◌≤◌, ◌-◌, ◌^◌, Some, IfSome, length, drop, take};
ghost use Rattle.std.specs.List.{position};
ghost use Rattle.std.specs.Str.Parse.{digits_value};
ghost use Rattle.a429_import.specs.ClockTime.{after_date, clock_time, date_in, dated_time, day_in, day_of, day_of_year_in, half_day_time, half_in, half_named, hour_in, hour_of, in_order, is_date_end, is_date_mark, is_day, is_day_end, number_of, seconds_in, sixtieth, time_at, time_on, within};
ghost use Rattle.a429_import.specs.Time.{AreFewDigits};

use crate::fields::{is_blank, without_first_blanks, without_last_blanks};
use crate::piece::end_of;
use crate::time::{Reading, Unit, are_digits, number_after, time_with_part, whole_time};
use jiff_core::civil::{Date, days_in_month};

/// How a clock's time is written (profile).
#[derive(Clone, Copy, Debug)]
pub struct ClockForm {
    /// What is before the time of day.
    pub date: DateForm,
    /// Whether its hours are 1 to 12, with AM or PM at the end.
    pub half_days: bool,
    /// What is before the digits of a part of a second.
    pub point: u8,
}

/// What is before a time of day (profile).
#[derive(Clone, Copy, Debug)]
pub enum DateForm {
    /// Nothing.
    None,
    /// A day of the calendar, its numbers in this order.
    Calendar(DateOrder),
    /// The number of a day of the year, from 1.
    DayOfYear,
}

/// The order of a date's numbers (profile).
#[derive(Clone, Copy, Debug)]
pub enum DateOrder {
    MonthDayYear,
    DayMonthYear,
    YearMonthDay,
}

/// A half of a day.
#[derive(Clone, Copy)]
enum Half {
    /// AM.
    Morning,
    /// PM.
    Afternoon,
}

impl ClockForm {
    /// The time of a text of this form: the microseconds since the first of 1970, since the year's first day, or since midnight, by what is
    /// before the time of day. `None` where the text is not of the form, or the calendar does not have the day.
    pub(crate) fn time(self, text: &[u8]) -> Option<Reading>
        ensures { result ≡ clock_time self text.now }
    {
        if self.half_days {
            self.half_day_time(text)
        } else {
            dated_time(self.date, None, self.point, text)
        }
    }

    fn half_day_time(self, text: &[u8]) -> Option<Reading>
        ensures { result ≡ half_day_time self text.now }
    {
        let end = text.len().saturating_sub(2);
        let half = half_in(&text[end..])?;
        dated_time(
            self.date,
            Some(half),
            self.point,
            without_last_blanks(&text[..end]),
        )
    }
}

// AM or PM.
fn half_in(text: &[u8]) -> Option<Half>
    ensures { result ≡ half_in text.now }
{
    match text {
        [half, m] => half_named(*half, *m),
        _ => None,
    }
}

fn half_named(half: u8, m: u8) -> Option<Half>
    ensures { result ≡ half_named half m }
{
    if !m.eq_ignore_ascii_case(&b'M') {
        None
    } else if half.eq_ignore_ascii_case(&b'A') {
        Some(Half::Morning)
    } else if half.eq_ignore_ascii_case(&b'P') {
        Some(Half::Afternoon)
    } else {
        None
    }
}

// The time of a text, of which a half of a day is known.
fn dated_time(date: DateForm, half: Option<Half>, point: u8, text: &[u8]) -> Option<Reading>
    ensures { result ≡ dated_time date half point text.now }
{
    match date {
        DateForm::None => time_on(0, half, point, text),
        DateForm::Calendar(order) => {
            let end = date_end(text)?;
            let day = date_in(order, &text[..end])?;
            time_on(day, half, point, after_date(&text[end..]))
        }
        DateForm::DayOfYear => {
            let end = day_end(text)?;
            let day = day_of_year_in(&text[..end])?;
            time_on(day, half, point, &text[end + 1..])
        }
    }
}

// Where a date ends: at a blank or a `T`.
fn date_end(text: &[u8]) -> Option<usize>
    ensures inside { IfSome result (λ e. e < length text.now) }
    ensures first { result ≡ position is_date_end text.now }
{
    text.iter().position(|byte| is_date_end(*byte))
}

fn is_date_end(byte: u8) -> bool
    ensures { result ≡ is_date_end byte }
{
    is_blank(byte) || byte == b'T'
}

// What comes after a date.
fn after_date(text: &[u8]) -> &[u8]
    ensures { result.now ≡ after_date text.now }
{
    match text {
        [b'T', rest @ ..] => rest,
        _ => without_first_blanks(text),
    }
}

// Where the number of a day ends: at a colon, a `/` or a blank.
fn day_end(text: &[u8]) -> Option<usize>
    ensures inside { IfSome result (λ e. e < length text.now) }
    ensures first { result ≡ position is_day_end text.now }
{
    text.iter().position(|byte| is_day_end(*byte))
}

fn is_day_end(byte: u8) -> bool
    ensures { result ≡ is_day_end byte }
{
    byte == b':' || byte == b'/' || is_blank(byte)
}

// The days of a year that come before the one with this number.
fn day_of_year_in(text: &[u8]) -> Option<u32>
    ensures { result ≡ day_of_year_in text.now }
{
    let number = within(1, 366, number_of(1, 3, text))?;
    Some(u32::from(number - 1))
}

// The days that come before a date, from the first of 1970 on.
fn date_in(order: DateOrder, text: &[u8]) -> Option<u32>
    ensures { result ≡ date_in order text.now }
{
    let first = date_mark(text)?;
    let rest = &text[first + 1..];
    let second = date_mark(rest)?;
    in_order(order, &text[..first], &rest[..second], &rest[second + 1..])
}

fn date_mark(text: &[u8]) -> Option<usize>
    ensures inside { IfSome result (λ e. e < length text.now) }
    ensures first { result ≡ position is_date_mark text.now }
{
    text.iter().position(|byte| is_date_mark(*byte))
}

fn is_date_mark(byte: u8) -> bool
    ensures { result ≡ is_date_mark byte }
{
    byte == b'/' || byte == b'-' || byte == b'.'
}

fn in_order(order: DateOrder, first: &[u8], second: &[u8], third: &[u8]) -> Option<u32>
    ensures { result ≡ in_order order first.now second.now third.now }
{
    match order {
        DateOrder::MonthDayYear => day_in(third, first, second),
        DateOrder::DayMonthYear => day_in(third, second, first),
        DateOrder::YearMonthDay => day_in(first, second, third),
    }
}

fn day_in(year: &[u8], month: &[u8], day: &[u8]) -> Option<u32>
    ensures { result ≡ day_in year.now month.now day.now }
{
    let year = number_of(4, 4, year)?;
    let month = number_of(1, 2, month)?;
    let day = number_of(1, 2, day)?;
    day_of(year, month, day)
}

// From -9999-01-01, with which the calendar begins, to the first of 1970.
const DAYS_BEFORE_1970: u32 = 4_371_587;

fn day_of(year: u16, month: u16, day: u16) -> Option<u32>
    ensures { result ≡ day_of (Some year) (Some month) (Some day) }
{
    if !is_day(year, month, day) {
        return None;
    }
    let date = Date {
        year: year as i16,
        month: month as u8,
        day: day as u8,
    };
    Some(date.days_since_min() - DAYS_BEFORE_1970)
}

// Whether the calendar has this day, from 1970 to 9999.
fn is_day(year: u16, month: u16, day: u16) -> bool
    ensures { result ≡ is_day year month day }
{
    1970 <= year
        && year <= 9999
        && 1 <= month
        && month <= 12
        && 1 <= day
        && day <= u16::from(days_in_month(year as i16, month as u8))
}

// The time on a day, days being counted from 0.
fn time_on(day: u32, half: Option<Half>, point: u8, text: &[u8]) -> Option<Reading>
    ensures { result ≡ time_on day half point text.now }
{
    let hour_end = end_of(text, b':')?;
    let rest = &text[hour_end + 1..];
    let minute_end = end_of(rest, b':')?;
    time_at(
        day,
        hour_in(half, &text[..hour_end]),
        sixtieth(&rest[..minute_end]),
        seconds_in(point, &rest[minute_end + 1..]),
    )
}

fn time_at(
    day: u32,
    hour: Option<u16>,
    minute: Option<u16>,
    second: Option<Reading>,
) -> Option<Reading>
    requires { IfSome second (λ r. r.micros < 60000000) }
    ensures { result ≡ time_at day hour minute second }
{
    let (Some(hour), Some(minute), Some(second)) = (hour, minute, second) else {
        return None;
    };
    let hours = u128::from(day) * 24 + u128::from(hour);
    let minutes = hours * 60 + u128::from(minute);
    Some(Reading {
        micros: minutes * 60_000_000 + second.micros,
        is_cut: second.is_cut,
    })
}

// The hour of the day, from 0.
fn hour_in(half: Option<Half>, text: &[u8]) -> Option<u16>
    ensures { result ≡ hour_in half text.now }
{
    let hour = number_of(1, 2, text);
    match half {
        None => within(0, 23, hour),
        Some(half) => Some(half.hour(within(1, 12, hour)?)),
    }
}

impl Half {
    // The hour of the day that is this hour of the half.
    fn hour(self, hour: u16) -> u16
        ensures { result ≡ hour_of self hour }
    {
        match self {
            Half::Morning => hour % 12,
            Half::Afternoon => hour % 12 + 12,
        }
    }
}

// A minute, or a second: two digits.
fn sixtieth(text: &[u8]) -> Option<u16>
    ensures { result ≡ sixtieth text.now }
{
    within(0, 59, number_of(2, 2, text))
}

// A second, and perhaps the point and more digits.
fn seconds_in(point: u8, text: &[u8]) -> Option<Reading>
    ensures reading { result ≡ seconds_in point text.now }
    ensures below { IfSome result (λ r. r.micros < 60000000) }
{
    match end_of(text, point) {
        Some(end) => {
            sixtieth(&text[..end])?;
            time_with_part(Unit::Second, &text[..end], &text[end + 1..])
        }
        None => {
            sixtieth(text)?;
            whole_time(Unit::Second, text)
        }
    }
}

// A number from the lowest to the highest.
fn within(low: u16, high: u16, number: Option<u16>) -> Option<u16>
    ensures { result ≡ within low high number }
{
    let number = number?;
    if low <= number && number <= high {
        Some(number)
    } else {
        None
    }
}

// The number that so many digits write, 4 at most.
fn number_of(least: usize, most: usize, text: &[u8]) -> Option<u16>
    requires { most ≤ 4 }
    ensures { result ≡ number_of least most text.now }
{
    if least <= text.len() && text.len() <= most && are_digits(text) {
        Some(small_number(text))
    } else {
        None
    }
}

fn small_number(digits: &[u8]) -> u16
    requires digits { AreFewDigits digits.now }
    requires few { length digits.now ≤ 4 }
    ensures { result ≡ digits_value 10 digits.now }
{
    number_after(0, digits) as u16
}
