//! The commands of the engine.
#![tactic(auto)]

mod commands;
mod print;
mod real;
mod refusal;
mod run;
mod status;
mod words;

pub use commands::{Ended, command, offline};
pub use real::{StdHost, refuse_words};
pub use refusal::Refusal;

/// How a command ends.
#[derive(Clone, Copy, Debug, PartialEq, Eq)]
pub enum End {
    /// It was carried out.
    Done,
    /// The words are no command.
    Usage,
    /// The schema's text is refused.
    Refused(Refusal),
    FetchFault,
    ReadFault,
    WriteFault,
    Memory,
    /// The connector couldn't be attached; its count of faults before and after.
    ConnectorFault { before: u64, after: u64 },
    /// What the connector keeps is laid out for another schema.
    LayoutDiffers,
    /// The input has more than 67,108,864 bytes.
    LongInput,
}
