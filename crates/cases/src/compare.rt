//! How what came differs from what must come.
ghost use Rattle.std.specs.Prelude.{◌≡◌, ◌↔◌, None};
ghost use Rattle.cases.specs.Alike.{AreAlike};

use crate::case::Outcome;
use std::alloc::{AllocError, Global};

/// What differs first.
#[derive(Clone, Copy, Debug, PartialEq, Eq)]
pub enum Difference {
    Status,
    Output,
    Told,
}

/// What of an outcome differs first from what must come: nothing exactly where the status, the output and
/// what is told are the same.
pub fn first_difference(wanted: &Outcome, got: &Outcome) -> Option<Difference>
    ensures { (result ≡ None) ↔ AreAlike wanted.now got.now }
{
    if wanted.status != got.status {
        return Some(Difference::Status);
    }
    if wanted.output.as_slice() != got.output.as_slice() {
        return Some(Difference::Output);
    }
    if wanted.told.as_slice() != got.told.as_slice() {
        return Some(Difference::Told);
    }
    None
}

/// The number of bytes that two texts have alike from the front on.
fn common(a: &[u8], b: &[u8]) -> usize {
    for (at, pair) in a.iter().zip(b.iter()).enumerate() {
        if pair.0 != pair.1 {
            return at;
        }
    }
    a.len().min(b.len())
}

/// How many bytes of a text are shown at most.
const SHOWN: usize = 60;

/// Some bytes of a text from a place on, on one line.
fn shown(alloc: Global, text: &[u8], at: usize) -> Result<String, AllocError> {
    let mut line = String::new(alloc);
    for (number, byte) in text.iter().skip(at).enumerate() {
        if number >= SHOWN {
            line.push_str("..")?;
            break;
        }
        match *byte {
            b'\n' => line.push_str("\\n")?,
            b' '..=b'~' => line.push(char::from(*byte))?,
            other => line.push_str(format!(in alloc; "\\x{{{other:02x}}}")?.as_str())?,
        }
    }
    Ok(line)
}

/// The first place where two texts differ, and what stands there.
fn text_differs(
    alloc: Global,
    what: &str,
    wanted: &[u8],
    got: &[u8],
) -> Result<String, AllocError> {
    let at = common(wanted, got);
    let expected = shown(alloc, wanted, at)?;
    let found = shown(alloc, got, at)?;
    format!(in alloc; "{what} at byte {at}: `{found}` and not `{expected}`")
}

/// What a difference is, on one line.
pub fn describe(
    alloc: Global,
    difference: Difference,
    wanted: &Outcome,
    got: &Outcome,
) -> Result<String, AllocError> {
    match difference {
        Difference::Status => {
            let output = shown(alloc, got.output.as_slice(), 0)?;
            let status = got.status;
            let expected = wanted.status;
            format!(in alloc; "status {status} and not {expected}, with `{output}`")
        }
        Difference::Output => text_differs(
            alloc,
            "output",
            wanted.output.as_slice(),
            got.output.as_slice(),
        ),
        Difference::Told => text_differs(
            alloc,
            "told",
            wanted.told.as_slice(),
            got.told.as_slice(),
        ),
    }
}
