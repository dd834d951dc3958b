//! Moments as text.
ghost use Rattle.std.specs.Prelude.{◌≡◌, option_and_then, ◌-ℤ◌, ◌||◌, ◌&&◌, nat_le, ◌+ℤ◌, ◌*ℤ◌, ◌+◌, ◌*◌, ◌^◌, ◌<◌, ◌≤◌, ◌≤ℤ◌, pos, neg_ℤ, true, [], ◌∷◌, length, take, drop, codes, Some, None, IfSome, if◌then◌else◌};
ghost use Rattle.std.specs.Char.{is_ascii_digit, digit_value};
ghost use Rattle.std.specs.List.{list_all};
ghost use Rattle.std.specs.Str.Parse.{digits_value};
ghost use Rattle.jiff_core.specs.Calendar.{days_from_civil, IsBetween, IsEpochDay, IsWithin};
ghost use Rattle.qe_scalars.specs.Moments as spec;

use jiff::civil::Date;

const DATE_AND_TIME: &[u8] = b"0000-00-00T00:00:00";

/// The milliseconds of the first and the last moment that can be kept.
const FIRST: i64 = -62_167_219_200_000;

const LAST: i64 = 253_402_300_799_999;

const UTC: &[u8] = b"Z";

const AHEAD: &[u8] = b"+00:00";

const BEHIND: &[u8] = b"-00:00";

/// Whether a byte fits one of a form: 0 stands for any digit and all else for itself.
fn fits(one: u8, byte: u8) -> bool
    ensures { result ≡ spec.has_form (one ∷ []) (byte ∷ []) }
{
    if one == b'0' {
        byte.is_ascii_digit()
    } else {
        one == byte
    }
}

/// Whether a text has a form.
fn has_form(form: &[u8], text: &[u8]) -> bool
    ensures { result ≡ spec.has_form form.now text.now }
{
    if form.len() != text.len() {
        return false;
    }
    for number in 0..form.len() {
        if !fits(form[number], text[number]) {
            return false;
        }
    }
    true
}

/// What a digit writes.
fn digit(byte: u8) -> u32
    requires { is_ascii_digit byte ≡ true }
    ensures value { result ≡ digit_value byte }
    ensures bound { result ≤ 9 }
{
    u32::from(byte - b'0')
}

/// What digits write.
fn number(digits: &[u8]) -> u32
    requires few { length digits.now ≤ 4 }
    requires digits { list_all is_ascii_digit digits.now ≡ true }
    ensures value { result ≡ digits_value 10 digits.now }
    ensures bound { result < 10 ^ length digits.now }
{
    let mut number = 0;
    for byte in digits {
        number = number * 10 + digit(*byte);
    }
    number
}

/// What so many digits write, from a place on.
fn number_at(text: &[u8], at: usize, count: usize) -> u32
    requires within { at + count ≤ length text.now }
    requires few { count ≤ 4 }
    requires digits { list_all is_ascii_digit (take count (drop at text.now)) ≡ true }
    ensures value { result ≡ spec.digits_at at count text.now }
    ensures bound { result < 10 ^ count }
{
    number(&text[at..at + count])
}

/// The day of a date, counted from 1970-01-01.
fn day_of(year: u32, month: u32, day: u32) -> Option<i64>
    requires year { year < 10_000 }
    requires month { month < 100 }
    requires day { day < 100 }
    ensures value { result ≡ (if spec.is_civil year month day then Some (days_from_civil (pos year) month day) else None) }
    ensures bound { IfSome result IsEpochDay }
{
    match Date::new(year as i16, month as i8, day as i8) {
        Ok(date) => Some(i64::from(date.to_plain().to_unix_epoch_day())),
        Err(_) => None,
    }
}

/// The second of a day.
fn second_of(hour: u32, minute: u32, second: u32) -> Option<u32>
    requires hour { hour < 100 }
    requires minute { minute < 100 }
    requires second { second < 100 }
    ensures value { result ≡ (if spec.is_clock hour minute second then Some (hour * 3600 + minute * 60 + second) else None) }
    ensures bound { IfSome result (λ count. count < 86_400) }
{
    if hour > 23 || minute > 59 || second > 59 {
        return None;
    }
    Some(hour * 3600 + minute * 60 + second)
}

/// The seconds of a date and a time, since 1970-01-01T00:00:00.
fn seconds_of(day: i64, second: u32) -> i64
    requires day { IsEpochDay day }
    requires second { second < 86_400 }
    ensures value { result ≡ day *ℤ pos 86_400 +ℤ pos second }
    ensures bound { IsWithin 400_000_000_000 result }
{
    day * 86_400 + i64::from(second)
}

/// The same, where a text has a date and a time that exist.
fn seconds_in(text: &[u8]) -> Option<i64>
    ensures value { result ≡ spec.seconds_of text.now }
    ensures bound { IfSome result (IsWithin 400_000_000_000) }
{
    if !has_form(DATE_AND_TIME, text) {
        return None;
    }
    let day = day_of(
        number_at(text, 0, 4),
        number_at(text, 5, 2),
        number_at(text, 8, 2),
    );
    let second = second_of(
        number_at(text, 11, 2),
        number_at(text, 14, 2),
        number_at(text, 17, 2),
    );
    match (day, second) {
        (Some(day), Some(second)) => Some(seconds_of(day, second)),
        (None, _) | (_, None) => None,
    }
}

/// The seconds that a zone's hours and minutes make, behind its sign.
fn distance_in(text: &[u8]) -> Option<i64>
    requires { (spec.has_form (codes "+00:00") text.now || spec.has_form (codes "-00:00") text.now) ≡ true }
    ensures value { result ≡ (if nat_le (spec.digits_at 1 2 text.now) 23 && nat_le (spec.digits_at 4 2 text.now) 59 then Some (pos (spec.digits_at 1 2 text.now * 3600 + spec.digits_at 4 2 text.now * 60)) else None) }
    ensures bound { IfSome result (IsBetween (pos 0) (pos 86_400)) }
{
    match second_of(number_at(text, 1, 2), number_at(text, 4, 2), 0) {
        Some(seconds) => Some(i64::from(seconds)),
        None => None,
    }
}

/// How many seconds a zone is before UTC.
fn zone_in(text: &[u8]) -> Option<i64>
    ensures value { result ≡ spec.zone_of text.now }
    ensures bound { IfSome result (IsWithin 86_400) }
{
    if text == UTC {
        Some(0)
    } else if has_form(AHEAD, text) {
        distance_in(text)
    } else if has_form(BEHIND, text) {
        Some(-distance_in(text)?)
    } else {
        None
    }
}

/// The milliseconds that the digits of a fraction stand for.
fn thousandths(digits: &[u8]) -> u32
    requires { list_all is_ascii_digit digits.now ≡ true }
    ensures value { result ≡ spec.thousandths digits.now }
    ensures bound { result < 1000 }
{
    match digits {
        [] => 0,
        [tenths] => digit(*tenths) * 100,
        [tenths, hundredths] => digit(*tenths) * 100 + digit(*hundredths) * 10,
        [tenths, hundredths, thousandths, ..] => {
            digit(*tenths) * 100 + digit(*hundredths) * 10 + digit(*thousandths)
        }
    }
}

/// How many digits a text begins with.
fn digits_before(text: &[u8]) -> usize
    ensures value { result ≡ spec.digits_before text.now }
    ensures bound { result ≤ length text.now }
{
    let mut count = 0;
    for byte in text {
        if !byte.is_ascii_digit() {
            return count;
        }
        count += 1;
    }
    count
}

/// The digits of a fraction, and the zone behind them.
fn fraction_in(text: &[u8]) -> Option<(u32, i64)>
    ensures value { result ≡ spec.fraction_by (spec.digits_before text.now) text.now }
    ensures bound { IfSome result (λ ending. ending.0 < 1000 × IsWithin 86_400 ending.1) }
{
    let count = digits_before(text);
    if count < 1 || count > 9 {
        return None;
    }
    let (digits, zone) = text.split_at(count);
    match zone_in(zone) {
        Some(zone) => Some((thousandths(digits), zone)),
        None => None,
    }
}

/// What follows the seconds: milliseconds, and the zone.
fn ending_in(text: &[u8]) -> Option<(u32, i64)>
    ensures value { result ≡ spec.ending_of text.now }
    ensures bound { IfSome result (λ ending. ending.0 < 1000 × IsWithin 86_400 ending.1) }
{
    match text {
        [] => None,
        [b'.', fraction @ ..] => fraction_in(fraction),
        [_, ..] => match zone_in(text) {
            Some(zone) => Some((0, zone)),
            None => None,
        },
    }
}

/// The milliseconds of these seconds at a zone, and more milliseconds.
fn milliseconds_of(seconds: i64, milliseconds: u32, zone: i64) -> i64
    requires seconds { IsWithin 400_000_000_000 seconds }
    requires milliseconds { milliseconds < 1000 }
    requires zone { IsWithin 86_400 zone }
    ensures { result ≡ (seconds -ℤ zone) *ℤ pos 1000 +ℤ pos milliseconds }
{
    (seconds - zone) * 1000 + i64::from(milliseconds)
}

fn is_moment(moment: i64) -> bool
    ensures { result ≡ spec.is_moment moment }
{
    FIRST <= moment && moment <= LAST
}

/// The moment that a date with its time and what follows them stand for.
fn moment_of(civil: &[u8], ending: &[u8]) -> Option<i64>
    ensures { result ≡ option_and_then (λ seconds. option_and_then (spec.moment_from seconds) (spec.ending_of ending.now)) (spec.seconds_of civil.now) }
{
    let seconds = seconds_in(civil)?;
    let (milliseconds, zone) = ending_in(ending)?;
    let moment = milliseconds_of(seconds, milliseconds, zone);
    if is_moment(moment) {
        Some(moment)
    } else {
        None
    }
}

/// The moment that a text stands for, in milliseconds since 1970-01-01T00:00:00Z.
pub fn moment_in(text: &str) -> Option<i64>
    ensures { result ≡ spec.moment_of text.now }
{
    let bytes = text.as_bytes();
    let (civil, ending) = bytes.split_at(DATE_AND_TIME.len().min(bytes.len()));
    moment_of(civil, ending)
}
