//! What stands at the front of a text, and how long it is.
ghost use Rattle.std.specs.Prelude.{◌≡◌, ◌≤◌, ◌<◌, ◌-◌, length, slice_index, true, false};
ghost use Rattle.psl_text.specs.Scan as spec;

use crate::token::Kind;

/// A kind and its length. For a fault, how far behind the front it is.
pub type Front = (Kind, usize);

fn is_blank(byte: u8) -> bool
    ensures { result ≡ spec.is_blank byte }
{
    byte == b' ' || byte == b'\t' || byte == b'\r'
}

fn is_word(byte: u8) -> bool
    ensures { result ≡ spec.is_word byte }
{
    byte.is_ascii_alphanumeric() || byte == b'_'
}

fn is_escape(byte: u8) -> bool
    ensures { result ≡ spec.is_escape byte }
{
    byte == b'"' || byte == b'\\' || byte == b'n' || byte == b'r' || byte == b't'
}

/// The byte at a place, and 0 past the end.
pub fn byte_at(text: &[u8], at: usize) -> u8
    ensures { result ≡ slice_index text.now at }
{
    if at < text.len() { text[at] } else { 0 }
}

#[tactic(auto, using(crate::proofs::Runs::blanks_move))]
fn blanks(text: &[u8]) -> usize
    ensures value { result ≡ spec.run spec.is_blank text.now }
    ensures within { result ≤ length text.now }
    ensures moves { spec.is_blank (slice_index text.now 0) ≡ true → 1 ≤ result }
{
    text.iter().take_while(|byte| is_blank(**byte)).count()
}

/// How many blanks a text ends with.
pub fn last_blanks(text: &[u8]) -> usize
    ensures value { result ≡ spec.last_run spec.is_blank text.now }
    ensures within { result ≤ length text.now }
{
    text.iter()
        .rev()
        .take_while(|byte| is_blank(**byte))
        .count()
}

#[tactic(auto, using(crate::proofs::Runs::words_ascii, crate::proofs::Runs::words_move))]
fn words(text: &[u8]) -> usize
    ensures value { result ≡ spec.run spec.is_word text.now }
    ensures within { result ≤ length text.now }
    ensures moves { spec.is_word (slice_index text.now 0) ≡ true → 1 ≤ result }
    ensures ascii { 1 ≤ result → slice_index text.now (result - 1) < 128 }
{
    text.iter().take_while(|byte| is_word(**byte)).count()
}

#[tactic(auto, using(crate::proofs::Runs::digits_ascii, crate::proofs::Runs::digits_move))]
fn digits(text: &[u8]) -> usize
    ensures value { result ≡ spec.run spec.is_digit text.now }
    ensures within { result ≤ length text.now }
    ensures moves { spec.is_digit (slice_index text.now 0) ≡ true → 1 ≤ result }
    ensures ascii { 1 ≤ result → slice_index text.now (result - 1) < 128 }
{
    text.iter().take_while(|byte| byte.is_ascii_digit()).count()
}

#[tactic(auto, using(crate::proofs::Runs::line_moves, crate::proofs::Runs::line_stops))]
fn line(text: &[u8]) -> usize
    ensures value { result ≡ spec.run spec.is_in_line text.now }
    ensures within { result ≤ length text.now }
    ensures moves { slice_index text.now 0 ≡ 47 → 1 ≤ result }
    ensures stops { result < length text.now → slice_index text.now result ≡ 10 }
{
    text.iter().take_while(|byte| **byte != b'\n').count()
}

fn broken(byte: u8, at: usize) -> Front
    ensures value { result ≡ spec.broken byte at }
    ensures fault { spec.is_fault result.0 ≡ true }
    ensures within { result.1 ≤ at }
{
    if byte == b'\n' {
        (Kind::Unclosed, 0)
    } else {
        (Kind::BadCharacter, at)
    }
}

/// The string whose quote is at the front.
#[tactic(auto, using(crate::proofs::Strings::quoted_at, crate::proofs::Strings::quoted_end), unfolding(crate::specs::Scan::quoted))]
fn string(text: &[u8]) -> Front
    requires { slice_index text.now 0 ≡ 34 }
    ensures value { result ≡ spec.quoted false 1 (spec.behind 1 text.now) }
    ensures span { spec.IsSpan text.now result.0 result.1 }
{
    let mut is_escaped = false;
    for at in 1..text.len() {
        let byte = text[at];
        if is_escaped {
            if !is_escape(byte) {
                return broken(byte, at);
            }
            is_escaped = false;
        } else if byte == b'"' {
            return (Kind::Text, at + 1);
        } else if byte == b'\\' {
            is_escaped = true;
        } else if byte < b' ' {
            return broken(byte, at);
        }
    }
    (Kind::Unclosed, 0)
}

#[tactic(auto, unfolding(crate::specs::Scan::sign))]
fn sign(text: &[u8]) -> Front
    ensures value { result ≡ spec.sign (slice_index text.now 0) }
    ensures span { spec.IsSpan text.now result.0 result.1 }
{
    match byte_at(text, 0) {
        b'{' => (Kind::OpenBrace, 1),
        b'}' => (Kind::CloseBrace, 1),
        b'(' => (Kind::OpenParen, 1),
        b')' => (Kind::CloseParen, 1),
        b'[' => (Kind::OpenBracket, 1),
        b']' => (Kind::CloseBracket, 1),
        b',' => (Kind::Comma, 1),
        b':' => (Kind::Colon, 1),
        b'=' => (Kind::Equals, 1),
        b'?' => (Kind::Question, 1),
        b'.' => (Kind::Dot, 1),
        b'@' => (Kind::At, 1),
        b'\n' => (Kind::Newline, 1),
        _ => (Kind::BadCharacter, 0),
    }
}

fn minus(text: &[u8]) -> Front
    requires { slice_index text.now 0 ≡ 45 }
    ensures value { result ≡ spec.minus text.now }
    ensures span { spec.IsSpan text.now result.0 result.1 }
{
    if byte_at(text, 1).is_ascii_digit() {
        (Kind::Number, 1 + digits(&text[1..]))
    } else {
        (Kind::BadCharacter, 0)
    }
}

fn slash(text: &[u8]) -> Front
    requires { slice_index text.now 0 ≡ 47 }
    ensures value { result ≡ spec.slash text.now }
    ensures span { spec.IsSpan text.now result.0 result.1 }
{
    if byte_at(text, 1) == b'/' {
        (Kind::Comment, line(text))
    } else {
        (Kind::BadCharacter, 0)
    }
}

fn at_sign(text: &[u8]) -> Front
    requires { slice_index text.now 0 ≡ 64 }
    ensures value { result ≡ spec.at_sign text.now }
    ensures span { spec.IsSpan text.now result.0 result.1 }
{
    if byte_at(text, 1) == b'@' {
        (Kind::AtAt, 2)
    } else {
        (Kind::At, 1)
    }
}

/// What stands at the front.
#[tactic(auto, unfolding(crate::specs::Scan::front))]
pub fn front(text: &[u8]) -> Front
    ensures value { result ≡ spec.front text.now }
    ensures span { spec.IsSpan text.now result.0 result.1 }
{
    let byte = byte_at(text, 0);
    if is_blank(byte) {
        (Kind::Blank, blanks(text))
    } else if byte.is_ascii_alphabetic() {
        (Kind::Name, words(text))
    } else if byte.is_ascii_digit() {
        (Kind::Number, digits(text))
    } else {
        match byte {
            b'-' => minus(text),
            b'/' => slash(text),
            b'"' => string(text),
            b'@' => at_sign(text),
            _ => sign(text),
        }
    }
}
