//! Why a text has no tree.
use qe_text::Memory;
use std::alloc::{AllocError, AllocFailed};

/// Why a text has no tree, with the place of the fault in bytes from the front.
#[derive(Clone, Copy, Debug, PartialEq, Eq)]
pub enum TextFault {
    /// The bytes from here on aren't UTF-8.
    NotUtf8 { at: usize },
    /// A character that may not stand here.
    BadCharacter { at: usize },
    /// A bracket or a string that is open at the end of the text, or a string at the end of its line.
    Unclosed { at: usize },
    /// A token that doesn't fit, or the end of the text where one is wanted.
    Unexpected { at: usize },
    /// The text has more bytes than this.
    TooLong { at: usize },
    Memory,
}

impl From<Memory> for TextFault {
    ghost use Rattle.std.specs.Prelude.{◌≡◌};
    ghost use Rattle.psl_text.specs.declared.fault.TextFault.TheVariants as fault;

    ghost from_gives = { λ _ e. e ≡ fault.Memory };

    fn from(_: Memory) -> TextFault {
        TextFault::Memory
    }
}

impl From<AllocError> for TextFault {
    ghost use Rattle.std.specs.Prelude.{◌≡◌};
    ghost use Rattle.psl_text.specs.declared.fault.TextFault.TheVariants as fault;

    ghost from_gives = { λ _ e. e ≡ fault.Memory };

    fn from(_: AllocError) -> TextFault {
        TextFault::Memory
    }
}

impl<T: Drop> From<AllocFailed<T>> for TextFault {
    ghost use Rattle.std.specs.Prelude.{◌≡◌};
    ghost use Rattle.psl_text.specs.declared.fault.TextFault.TheVariants as fault;

    ghost from_gives = { λ _ e. e ≡ fault.Memory };

    fn from(_: AllocFailed<T>) -> TextFault {
        TextFault::Memory
    }
}
