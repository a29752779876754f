// Dates, times of day and moments.
ghost use Rattle.std.specs.Prelude.{◌≡◌, ◌+◌, ◌<◌, ◌≤◌, ◌++◌, pos, IfOk, IfSome, OnOk, OnErr, IsOk, length, vec_len};
ghost use Rattle.std.specs.Prelude.{vec_capacity};
ghost use Rattle.dir_bytes.specs.{Causes.last_moment, FieldTexts.{date_of, two_digits, date_text, clock_text}};
ghost use Rattle.dir_bytes.specs.FieldTexts.{moment_text};
ghost use Rattle.dir_bytes.specs.Fields as fields;

use crate::append::{append, reserve};
use crate::fault::{BadField, Memory};
use crate::numbers::number_up_to;
use jiff_core::civil::Date;

// The days from 1970-01-01 to a date, if the calendar has it and it is no earlier.
#[tactic(auto, unfolding(crate::specs::Fields::day_of))]
fn day_of(year: u64, month: u64, day: u64) -> Option<u32>
    requires year { year ≤ 9999 }
    requires month { month ≤ 99 }
    requires day { day ≤ 99 }
    ensures value { result ≡ fields.day_of year month day }
    ensures within { IfSome result (λ n. n ≤ 2932896) }
{
    if year < 1970 {
        return None;
    }
    match Date::new(year as i16, month as i8, day as i8) {
        Ok(date) => Some(date.to_unix_epoch_day() as u32),
        Err(_) => None,
    }
}

/// The days from 1970-01-01 to the date `YYYY-MM-DD`. `BadField` where the text has another form, or the years 1970 to
/// 9999 have no such date.
#[tactic(auto, unfolding(crate::specs::Fields::date))]
pub fn read_date(text: &[u8]) -> Result<u32, BadField>
    ensures value { result ≡ fields.or_bad (fields.date text.now) }
    ensures within { IfOk result (λ day. day ≤ 2932896) }
{
    if text.len() != 10 || text[4] != b'-' || text[7] != b'-' {
        return Err(BadField);
    }
    let (Some(year), Some(month), Some(day)) = (
        number_up_to(&text[0..4], 9999),
        number_up_to(&text[5..7], 99),
        number_up_to(&text[8..10], 99),
    ) else {
        return Err(BadField);
    };
    match day_of(year, month, day) {
        Some(number) => Ok(number),
        None => Err(BadField),
    }
}

/// The seconds from midnight to the time `HH:MM:SS`, of which the last second of a day is 86399. `BadField` where the
/// text has another form, or no day has that second.
#[tactic(auto, unfolding(crate::specs::Fields::time_of_day))]
pub fn read_time_of_day(text: &[u8]) -> Result<u32, BadField>
    ensures value { result ≡ fields.or_bad (fields.time_of_day text.now) }
    ensures within { IfOk result (λ second. second < 86400) }
{
    if text.len() != 8 || text[2] != b':' || text[5] != b':' {
        return Err(BadField);
    }
    let (Some(hour), Some(minute), Some(second)) = (
        number_up_to(&text[0..2], 23),
        number_up_to(&text[3..5], 59),
        number_up_to(&text[6..8], 59),
    ) else {
        return Err(BadField);
    };
    Ok((3600 * hour + 60 * minute + second) as u32)
}

/// The moment of a date `YYYY-MM-DD` and a time `HH:MM:SS`, in seconds since 1970-01-01 00:00:00. `BadField` where
/// either is none.
pub fn read_time(date: &[u8], time: &[u8]) -> Result<u64, BadField>
    ensures value { result ≡ fields.or_bad (fields.moment date.now time.now) }
    ensures within { IfOk result (λ moment. moment ≤ last_moment) }
{
    let (Ok(day), Ok(second)) = (read_date(date), read_time_of_day(time)) else {
        return Err(BadField);
    };
    Ok(86400 * day as u64 + second as u64)
}

// The date so many days after 1970-01-01.
#[tactic(auto, using(crate::proofs::Days::days))]
fn calendar_date(day: u32) -> Date
    requires { day ≤ 2932896 }
    ensures year { result.year ≡ pos (date_of day).year }
    ensures month { result.month ≡ (date_of day).month }
    ensures day { result.day ≡ (date_of day).day }
    ensures late { 1970 ≤ (date_of day).year }
    ensures year_within { (date_of day).year ≤ 9999 }
    ensures month_within { (date_of day).month ≤ 12 }
    ensures day_within { (date_of day).day ≤ 31 }
{
    match Date::from_unix_epoch_day(day as i64) {
        Ok(date) => date,
        Err(_) => unreachable!(),
    }
}

// Adds a number as two digits, for which there is room.
fn append_pair(out: &mut Vec<u8>, number: u32)
    requires small { number < 100 }
    requires room { vec_len out.old + 2 ≤ vec_capacity out.old }
    ensures items { out.new.items ≡ out.old.items ++ two_digits number }
    ensures len { vec_len out.new ≡ vec_len out.old + 2 }
    ensures capacity { vec_capacity out.old ≤ vec_capacity out.new }
{
    append(
        out,
        &[b'0' + (number / 10) as u8, b'0' + (number % 10) as u8],
    );
}

// Adds a date, for which there is room.
#[tactic(auto, unfolding(crate::specs::FieldTexts::date_text))]
fn append_date(out: &mut Vec<u8>, day: u32)
    requires day { day ≤ 2932896 }
    requires room { vec_len out.old + 10 ≤ vec_capacity out.old }
    ensures items { out.new.items ≡ out.old.items ++ date_text day }
    ensures len { vec_len out.new ≡ vec_len out.old + 10 }
    ensures capacity { vec_capacity out.old ≤ vec_capacity out.new }
{
    let date = calendar_date(day);
    let year = date.year as u32;
    append_pair(out, year / 100);
    append_pair(out, year % 100);
    append(out, b"-");
    append_pair(out, date.month as u32);
    append(out, b"-");
    append_pair(out, date.day as u32);
}

// Adds a time of day, for which there is room.
#[tactic(auto, unfolding(crate::specs::FieldTexts::clock_text))]
fn append_clock(out: &mut Vec<u8>, second: u32)
    requires second { second < 86400 }
    requires room { vec_len out.old + 8 ≤ vec_capacity out.old }
    ensures items { out.new.items ≡ out.old.items ++ clock_text second }
    ensures len { vec_len out.new ≡ vec_len out.old + 8 }
    ensures capacity { vec_capacity out.old ≤ vec_capacity out.new }
{
    append_pair(out, second / 3600);
    append(out, b":");
    append_pair(out, second / 60 % 60);
    append(out, b":");
    append_pair(out, second % 60);
}

/// Appends the moment as `YYYY-MM-DD HH:MM:SS`.
#[tactic(auto, using(crate::proofs::Days::days))]
pub fn push_time(out: &mut Vec<u8>, moment: u64) -> Result<(), Memory>
    requires { moment ≤ last_moment }
    ensures ok { OnOk result (out.new.items ≡ out.old.items ++ moment_text moment) }
    ensures err { OnErr result (out.new.items ≡ out.old.items) }
    ensures room { vec_len out.old + length (moment_text moment) ≤ vec_capacity out.old → IsOk result }
    ensures capacity { vec_capacity out.old ≤ vec_capacity out.new }
{
    reserve(out, 19)?;
    append_date(out, (moment / 86400) as u32);
    append(out, b" ");
    append_clock(out, (moment % 86400) as u32);
    Ok(())
}
