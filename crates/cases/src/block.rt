//! The lines of a text: `| TEXT` is a line of it, `\ TEXT` stands for what its escapes say and ends no line,
//! and `repeat N TEXT` is the same N times, where `%N` is the number of the turn from 1.
use crate::case::Fault;
use std::alloc::{AllocError, Global};

/// Whether a line is one of a text.
pub fn is_body(line: &str) -> bool {
    line.starts_with('|') || line.starts_with('\\') || line.starts_with("repeat ")
}

/// The number of a hexadecimal digit.
fn digit(byte: u8) -> Option<u8> {
    match byte {
        b'0'..=b'9' => Some(byte - b'0'),
        b'a'..=b'f' => Some(byte - b'a' + 10),
        _ => None,
    }
}

/// The byte of `x{HH}`, where an escape ends so.
fn byte_of(escape: &[u8]) -> Option<u8> {
    match escape {
        [b'x', b'{', high, low, b'}', ..] => {
            let high = digit(*high)?;
            let low = digit(*low)?;
            Some(high.wrapping_mul(16).wrapping_add(low))
        }
        _ => None,
    }
}

/// What stands behind a backslash: the byte that is meant, and how many bytes say so.
fn escaped(behind: &[u8]) -> Option<(u8, usize)> {
    match behind {
        [b'n', ..] => Some((b'\n', 1)),
        [b't', ..] => Some((b'\t', 1)),
        [b'r', ..] => Some((b'\r', 1)),
        [b'\\', ..] => Some((b'\\', 1)),
        _ => {
            let byte = byte_of(behind)?;
            Some((byte, 5))
        }
    }
}

/// A piece between counters.
type Pieces = Vec<Vec<u8>>;

/// What a text with escapes stands for, cut at each `%N`.
fn pieces(alloc: Global, text: &[u8]) -> Result<Pieces, Fault> {
    let mut all = Vec::new(alloc);
    let mut piece = Vec::new(alloc);
    let mut passed = 0_usize;
    for (at, byte) in text.iter().enumerate() {
        if passed > 0 {
            passed -= 1;
            continue;
        }
        let behind = text.get(at..).unwrap_or(&[]);
        match behind {
            [b'%', b'N', ..] => {
                all.push(piece)?;
                piece = Vec::new(alloc);
                passed = 1;
            }
            [b'\\', escape @ ..] => {
                let Some((meant, length)) = escaped(escape) else {
                    return Err(Fault::Form);
                };
                piece.push(meant)?;
                passed = length;
            }
            _ => piece.push(*byte)?,
        }
    }
    all.push(piece)?;
    Ok(all)
}

/// Appends pieces, with the number of the turn between them.
fn push_turn(
    alloc: Global,
    text: &mut Vec<u8>,
    pieces: &[Vec<u8>],
    turn: u64,
) -> Result<(), AllocError> {
    for (number, piece) in pieces.iter().enumerate() {
        if number > 0 {
            let counter = format!(in alloc; "{turn}")?;
            text.extend_from_slice(counter.as_str().as_bytes())?;
        }
        text.extend_from_slice(piece.as_slice())?;
    }
    Ok(())
}

/// Appends so many turns of a text with escapes.
fn push_turns(alloc: Global, text: &mut Vec<u8>, count: u64, turn: &str) -> Result<(), Fault> {
    let pieces = pieces(alloc, turn.as_bytes())?;
    for number in 0..count {
        push_turn(alloc, text, pieces.as_slice(), number.wrapping_add(1))?;
    }
    Ok(())
}

/// Appends a repeated text: its number and the text.
fn push_repeated(alloc: Global, text: &mut Vec<u8>, rest: &str) -> Result<(), Fault> {
    let Some((count, turn)) = rest.split_once(' ') else {
        return Err(Fault::Form);
    };
    match count.parse::<u64>() {
        Ok(count) => push_turns(alloc, text, count, turn),
        Err(_) => Err(Fault::Number),
    }
}

/// Appends what a line of a text stands for.
pub fn push_line(alloc: Global, text: &mut Vec<u8>, line: &str) -> Result<(), Fault> {
    if line == "|" {
        text.push(b'\n')?;
        return Ok(());
    }
    if let Some(plain) = line.strip_prefix("| ") {
        text.extend_from_slice(plain.as_bytes())?;
        text.push(b'\n')?;
        return Ok(());
    }
    if let Some(turn) = line.strip_prefix("\\ ") {
        return push_turns(alloc, text, 1, turn);
    }
    match line.strip_prefix("repeat ") {
        Some(rest) => push_repeated(alloc, text, rest),
        None => Err(Fault::Form),
    }
}
