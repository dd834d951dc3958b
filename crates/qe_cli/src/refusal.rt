//! Why the text of a schema is refused.
ghost use Rattle.std.specs.Prelude.{◌≡◌, string_bytes, IfOk};
ghost use Rattle.qe_cli.specs.Refused.{line_at, broken_line, refusal_line};

use std::alloc::{AllocError, Global};

/// Why the text of a schema is refused: its fault or the rule that it breaks, with the place in bytes
/// from the front.
#[derive(Clone, Copy, Debug, PartialEq, Eq)]
pub enum Refusal {
    NotUtf8 { at: usize },
    BadCharacter { at: usize },
    Unclosed { at: usize },
    Unexpected { at: usize },
    TooLong { at: usize },
    /// The rule of this number is broken.
    Broken { rule: u8, at: usize },
}

/// The line of a fault of this kind, at a place.
fn line_at(alloc: Global, kind: &str, at: usize) -> Result<String, AllocError>
    ensures { IfOk result (λ line. string_bytes line ≡ line_at kind.now at) }
{
    format!(in alloc; "P1012 {kind} at {at}\n")
}

/// The line of a broken rule, at a place.
fn broken_line(alloc: Global, rule: u8, at: usize) -> Result<String, AllocError>
    ensures { IfOk result (λ line. string_bytes line ≡ broken_line rule at) }
{
    format!(in alloc; "P1012 V{rule} at {at}\n")
}

impl Refusal {
    /// The line that says why.
    pub fn line(self, alloc: Global) -> Result<String, AllocError>
        ensures { IfOk result (λ line. string_bytes line ≡ refusal_line self) }
    {
        match self {
            Refusal::NotUtf8 { at } => line_at(alloc, "T1", at),
            Refusal::BadCharacter { at } => line_at(alloc, "T2", at),
            Refusal::Unclosed { at } => line_at(alloc, "T3", at),
            Refusal::Unexpected { at } => line_at(alloc, "T4", at),
            Refusal::TooLong { at } => line_at(alloc, "T5", at),
            Refusal::Broken { rule, at } => broken_line(alloc, rule, at),
        }
    }
}
