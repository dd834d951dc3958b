//! Whole numbers as text.
ghost use Rattle.std.specs.Prelude.{◌≡◌};
ghost use Rattle.std.specs.Char.{is_ascii_digit};
ghost use Rattle.std.specs.List.{list_all};
ghost use Rattle.qe_scalars.specs.Numbers as spec;

fn are_all_digits(text: &[u8]) -> bool
    ensures { result ≡ list_all is_ascii_digit text.now }
{
    text.iter().all(|byte| byte.is_ascii_digit())
}

/// Whether a text is one digit or more.
fn are_digits(text: &[u8]) -> bool
    ensures { result ≡ spec.are_digits text.now }
{
    !text.is_empty() && are_all_digits(text)
}

/// Whether a text is digits, with a minus before them or without.
fn is_number(text: &[u8]) -> bool
    ensures { result ≡ spec.is_number text.now }
{
    match text {
        [] => false,
        [first, rest @ ..] => are_digits(text) || (*first == b'-' && are_digits(rest)),
    }
}

/// The number that a text stands for, within 64 bits.
pub fn big_in(text: &str) -> Option<i64>
    ensures { result ≡ spec.number_within spec.is_big text.now }
{
    if !is_number(text.as_bytes()) {
        return None;
    }
    text.parse::<i64>().ok()
}

/// Whether a number fits into 32 bits.
fn is_small(number: i64) -> bool
    ensures { result ≡ spec.is_small number }
{
    number >= -2_147_483_648 && number < 2_147_483_648
}

/// The number that a text stands for, within 32 bits.
pub fn small_in(text: &str) -> Option<i64>
    ensures { result ≡ spec.number_within spec.is_small text.now }
{
    match big_in(text) {
        Some(number) if is_small(number) => Some(number),
        Some(_) | None => None,
    }
}
