//! The status of the program and the line that is printed, by how a command ends.
ghost use Rattle.std.specs.Prelude.{◌≡◌, string_bytes, MatchOption, IfOk, true};
ghost use Rattle.qe_cli.specs.Ends.{fault_line, has_made_line, line_of, status_of};

use crate::{End, Refusal};
use psl_text::TextFault;
use qe_node::LinesEnd;
use std::alloc::{AllocError, Global};

impl End {
    /// The status of the program.
    pub(crate) fn status(self) -> u8
        ensures { result ≡ status_of self }
    {
        match self {
            End::Done => 0,
            End::Usage => 2,
            End::Refused(_) => 3,
            End::FetchFault | End::ReadFault | End::WriteFault => 4,
            End::Memory => 5,
            End::ConnectorFault { .. } | End::LayoutDiffers => 6,
            End::LongInput => 7,
        }
    }

    /// The line that is printed at the end, where it needs no memory.
    pub(crate) fn fixed_line(self) -> Option<&'static [u8]>
        ensures { MatchOption result (has_made_line self ≡ true) (λ line. line.now ≡ line_of self) }
    {
        match self {
            End::Done | End::WriteFault => Some(b""),
            End::Usage => Some(b"usage\n"),
            End::FetchFault => Some(b"fault fetch\n"),
            End::ReadFault => Some(b"fault read\n"),
            End::Memory => Some(b"memory\n"),
            End::LayoutDiffers => Some(b"layout differs\n"),
            End::LongInput => Some(b"limit input\n"),
            End::Refused(_) | End::ConnectorFault { .. } => None,
        }
    }

    /// The line that is printed at the end, where it needs memory.
    pub(crate) fn made_line(self, alloc: Global) -> Result<String, AllocError>
        ensures { has_made_line self ≡ true → IfOk result (λ line. string_bytes line ≡ line_of self) }
    {
        match self {
            End::Refused(refusal) => refusal.line(alloc),
            End::ConnectorFault { before, after } => fault_line(alloc, before, after),
            _ => Ok(String::new(alloc)),
        }
    }
}

/// The line of a connector that couldn't be attached, with its count of faults before and after.
fn fault_line(alloc: Global, before: u64, after: u64) -> Result<String, AllocError>
    ensures { IfOk result (λ line. string_bytes line ≡ fault_line before after) }
{
    format!(in alloc; "connector failed {before} {after}\n")
}

impl From<LinesEnd> for End {
    ghost use Rattle.std.specs.Prelude.{◌≡◌};
    ghost use Rattle.qe_cli.specs.Ends.{end_from};

    ghost from_gives = { λ lines e. e ≡ end_from lines };

    fn from(lines: LinesEnd) -> End {
        match lines {
            LinesEnd::Done => End::Done,
            LinesEnd::LongInput => End::LongInput,
            LinesEnd::ReadFault => End::ReadFault,
            LinesEnd::WriteFault => End::WriteFault,
            LinesEnd::Memory => End::Memory,
        }
    }
}

impl From<TextFault> for End {
    ghost use Rattle.std.specs.Prelude.{◌≡◌};
    ghost use Rattle.qe_cli.specs.Refused.{end_at};

    ghost from_gives = { λ fault e. e ≡ end_at fault };

    fn from(fault: TextFault) -> End {
        match fault {
            TextFault::NotUtf8 { at } => End::Refused(Refusal::NotUtf8 { at }),
            TextFault::BadCharacter { at } => End::Refused(Refusal::BadCharacter { at }),
            TextFault::Unclosed { at } => End::Refused(Refusal::Unclosed { at }),
            TextFault::Unexpected { at } => End::Refused(Refusal::Unexpected { at }),
            TextFault::TooLong { at } => End::Refused(Refusal::TooLong { at }),
            TextFault::Memory => End::Memory,
        }
    }
}
