//! What tests say of values and of rows.
ghost use Rattle.std.specs.Prelude.{◌≡◌};
ghost use Rattle.std.specs.Cmp.Lexicographic.{pointwise};
ghost use Rattle.std.specs.Char.{eq_ignore_ascii_case};
ghost use Rattle.std.specs.List.{starts_with, ends_with, list_any};
ghost use Rattle.qe_base.specs.Values.{value_eq};
ghost use Rattle.qe_schema.specs.Columns.{value_at};
ghost use Rattle.qe_schema.specs.Tests.{yes_if, unless_null, one_of, is_inside, is_like, is_yes, test_of, passes};

use crate::values::is_null;
use qe_base::{ColumnTest, Like, Row, Test, Value};
use qe_schema::Truth;

fn yes_if(holds: bool) -> Truth
    ensures { result ≡ yes_if holds }
{
    if holds { Truth::Yes } else { Truth::No }
}

fn is_yes(truth: Truth) -> bool
    ensures { result ≡ is_yes truth }
{
    match truth {
        Truth::Yes => true,
        Truth::No => false,
        Truth::Unknown => false,
    }
}

fn unless_null(is_null: bool, holds: bool) -> Truth
    ensures { result ≡ unless_null is_null holds }
{
    if is_null {
        Truth::Unknown
    } else {
        yes_if(holds)
    }
}

/// Whether two texts are the same but for the case of letters of ASCII.
fn are_alike(text: &[u8], other: &[u8]) -> bool
    ensures { result ≡ pointwise eq_ignore_ascii_case text.now other.now }
{
    text.eq_ignore_ascii_case(other)
}

#[tactic(auto, using(crate::proofs::Alike::longer_differs))]
fn begins(text: &[u8], needle: &[u8]) -> bool
    ensures { result ≡ starts_with eq_ignore_ascii_case text.now needle.now }
{
    needle.len() <= text.len() && are_alike(needle, &text[..needle.len()])
}

#[tactic(auto, using(crate::proofs::Alike::longer_differs))]
fn ends(text: &[u8], needle: &[u8]) -> bool
    ensures { result ≡ ends_with eq_ignore_ascii_case text.now needle.now }
{
    needle.len() <= text.len() && are_alike(needle, &text[text.len() - needle.len()..])
}

fn is_inside(needle: &[u8], text: &[u8]) -> bool
    ensures { result ≡ is_inside needle.now text.now }
{
    let mut rest = text;
    'rest: while let [_, later @ ..] = rest {
        if begins(rest, needle) {
            return true;
        }
        rest = later;
    }
    begins(rest, needle)
}

fn is_like(how: Like, needle: &[u8], text: &[u8]) -> bool
    ensures { result ≡ is_like how needle.now text.now }
{
    match how {
        Like::Inside => is_inside(needle, text),
        Like::Begin => begins(text, needle),
        Like::End => ends(text, needle),
    }
}

fn is_among(wanted: &[Value], value: &Value) -> bool
    ensures { result ≡ list_any (value_eq value.now) wanted.now }
{
    wanted.iter().any(|one| value == one)
}

fn one_of(wanted: &[Value], value: &Value) -> Truth
    ensures { result ≡ one_of wanted.now value.now }
{
    match wanted {
        [] => Truth::No,
        [_, ..] => unless_null(is_null(value), is_among(wanted, value)),
    }
}

/// What a test says of a value: of null it is unknown, but for the test of null and that of none.
pub fn test_of(test: &Test, value: &Value) -> Truth
    ensures { result ≡ test_of test.now value.now }
{
    let null = is_null(value);
    match test {
        Test::IsNull => yes_if(null),
        Test::Equals(wanted) => unless_null(null, value == wanted),
        Test::OneOf(wanted) => one_of(wanted.as_slice(), value),
        Test::Less(bound) => unless_null(null, value.cmp(bound).is_lt()),
        Test::AtMost(bound) => unless_null(null, value.cmp(bound).is_le()),
        Test::Greater(bound) => unless_null(null, value.cmp(bound).is_gt()),
        Test::AtLeast(bound) => unless_null(null, value.cmp(bound).is_ge()),
        Test::Like(how, needle) => {
            unless_null(
                null,
                is_like(*how, needle.as_str().as_bytes(), value.bytes()),
            )
        }
    }
}

fn says_yes(asked: &ColumnTest, row: &Row) -> bool
    ensures { result ≡ is_yes (test_of asked.now.test (value_at row.now asked.now.column)) }
{
    match sqlite_items::at(row.values(), asked.column as usize) {
        Some(value) => is_yes(test_of(&asked.test, value)),
        None => is_yes(test_of(&asked.test, &Value::Null)),
    }
}

/// Whether each test says yes of the value that a row has in its column.
pub fn passes(tests: &[ColumnTest], row: &Row) -> bool
    ensures { result ≡ passes tests.now row.now }
{
    tests.iter().all(|asked| says_yes(asked, row))
}
